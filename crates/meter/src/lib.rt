// The one place in code where a need is compared with a bound: the limits, the allowance of steps, and the created numbers.

#![tactic(auto)]

mod counting;
mod meter;
mod question;

pub use meter::Meter;
pub use question::Question;
