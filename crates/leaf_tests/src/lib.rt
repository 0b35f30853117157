// Tests of what the contracts of the lower crates cannot say: that calls succeed at the bounds, and that the definitions are
// the ones wanted. Expected values come from the language's description, or from another program.

#![tactic(auto)]

#[cfg(test)]
mod built_ins_tests;
#[cfg(test)]
mod dictionary_tests;
#[cfg(test)]
mod number_tests;
#[cfg(test)]
mod rule_tests;
#[cfg(test)]
mod scan_tests;
mod scanning;
#[cfg(test)]
mod signs_tests;
mod spelling;
mod stored;
mod stored_classes;
mod stored_strings;
mod storing;

pub(crate) use scanning::{parameter_is, put_before_right, put_behind_left, run, step, texts_are};
pub(crate) use spelling::in_ebcdic;
pub(crate) use stored::Stored;
