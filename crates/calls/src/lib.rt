// The call of a function, from its name to its end.

#![tactic(auto)]

mod applying;
mod ending;
mod filling;
mod making;
mod planning;
mod ready_call;
mod retrieving;

pub use making::make_call;
