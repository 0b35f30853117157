// What PS prints: a text in lines of at most 132 bytes.

#![tactic(auto)]

mod cutting;
mod printing;

pub use printing::{lines_length, print_lines};
