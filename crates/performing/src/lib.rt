// What a call of a built-in does to the world, once nothing refuses it.

#![tactic(auto)]

mod classes;
mod defining;
mod erasing;
mod handing;
mod keeping;
mod lines;
mod performing;
mod segmenting;
mod strings;
mod strings_to_store;

pub use performing::perform;
