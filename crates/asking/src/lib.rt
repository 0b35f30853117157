// The questions about needs that are put before an effect.

#![tactic(auto)]

mod answering;
mod asking;
mod effects;
mod questions;

pub use asking::ask;
