// The expansion of a source: its scan, with the calls that it makes.

#![tactic(auto)]

mod expanded;
mod expanding;
mod scanning;
mod source;

pub use expanded::Expanded;
pub use expanding::expand_source;
