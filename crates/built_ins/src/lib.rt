// The built-in functions of the language: finding one by its name in a code, and what the table says of each.

#![tactic(auto)]

mod facts;
mod naming;
mod table;

pub use facts::{least_parameters, place_of};
pub use naming::find_built_in;
