// Bytes as text in hex: two digits to a byte, 0 to 9 and a to f.

#![tactic(auto)]

mod reading;
mod writing;

pub use reading::unhex;
pub use writing::{Hex, push_hex};
