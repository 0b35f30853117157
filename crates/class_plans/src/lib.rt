// What calls of the functions on classes of characters come to: DCL DNCL ECL CCL SCL TCL.

#![tactic(auto)]

mod defining;
mod passing;
mod planning;
mod reading;
mod run;
mod testing;

pub use planning::plan_class;
