// The strings of a program of the library become strings of the dictionary: for COPY, and for a called name that means nothing.

#![tactic(auto)]

mod copying;
mod defining;
mod programs;
mod retrieving;

pub use copying::copy_program;
pub use programs::fetch;
pub use retrieving::retrieve_named;
