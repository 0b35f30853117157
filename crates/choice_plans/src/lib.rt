// What calls of the functions that choose one of their two last parameters come to: EQ GT LT of numbers, EQ? GT? LT? of
// texts, and NDF.

#![tactic(auto)]

mod choosing;
mod comparing;
mod naming;

pub use choosing::chosen;
pub use comparing::plan_comparison;
pub use naming::plan_name_defined;
