// What the arithmetic functions come to: AD SU MU DV DVR ABS.

#![tactic(auto)]

mod calculating;
mod planning;

pub use planning::plan_arithmetic;
