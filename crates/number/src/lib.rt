// Decimal integers: read from texts, asked for, reckoned with, and written.

#![tactic(auto)]

mod arithmetic;
mod asking;
mod numeral;
mod reading;
mod writing;

pub use arithmetic::{absolute, add, divide, multiply, remainder, subtract};
pub use asking::{read_count, read_one, read_two};
pub use numeral::Numeral;
pub use reading::read_integer;
pub use writing::{count_length, write_count, write_integer, written_length};
