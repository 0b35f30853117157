// A call's value goes into the texts of the scan, and the call's own text and entries go.

#![tactic(auto)]

mod closing;
mod delivery;
mod environment;
mod filling;
mod opening;
mod writing;

pub use delivery::{Delivery, Placement};
pub use environment::Environment;
