// What calls of the functions that read a string come to: CC CN SN ISC SCN CP CS RRP EOS.

#![tactic(auto)]

mod characters;
mod ends;
mod parts;
mod passing;
mod planning;
mod searching;

pub use planning::plan_selection;
