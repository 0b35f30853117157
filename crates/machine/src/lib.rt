// The machine of the language, defined once. The definitions are in specs/, over lists and records; here are the words that
// they share with code: the built-in functions, the entries of the roll, and amounts of what is counted.

#![tactic(auto)]

mod amounts;
mod built_in;
mod cases;
mod laws;
mod promises;
mod roll;
mod rule;

pub use amounts::{Amounts, Limits};
pub use built_in::{
    ArithmeticFunction, BuiltIn, ClassFunction, ComparisonFunction, DictionaryFunction,
    LibraryFunction, OtherFunction, SelectionFunction, TextFunction,
};
pub use cases::{worked_cases_hold, worked_examples_hold};
pub use laws::{
    arithmetic_laws_hold, dictionary_laws_hold, invariants_hold, library_laws_hold, scan_laws_hold,
    string_laws_hold,
};
pub use promises::{chain_laws_hold, promises_hold};
pub use roll::{Begins, RollEntry};
pub use rule::Rule;
