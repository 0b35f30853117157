// Images of programs: the format, opening one, and the opened image as a library.

#![tactic(auto)]

mod contents;
mod entry;
mod granted;
mod line;
mod open;
mod program;
mod reading;

pub use granted::Image;
