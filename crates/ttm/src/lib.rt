// The processor: it is made, it expands, and it is looked into.

#![tactic(auto)]

mod concluding;
mod entry;
mod expanding;
mod finding;
mod looking;
mod make_error;
mod making;
mod processor;
mod report;
mod running;

pub use finding::Finding;
pub use make_error::MakeError;
pub use processor::Processor;
pub use report::{Refused, Report};
