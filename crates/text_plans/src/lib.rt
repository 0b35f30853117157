// What the functions come to that make a text of a parameter: GN FLIP TRL NORM. And PS and BREAK.

#![tactic(auto)]

mod giving;
mod planning;

pub use planning::{plan_break, plan_print, plan_text};
