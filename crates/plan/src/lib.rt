// What a call of a built-in comes to, before any of it is done: a value and an effect, named by places.

#![tactic(auto)]

mod asking;
mod effect;
mod finding;
mod plan;

pub use effect::Effect;
pub use finding::{find_class, find_string};
pub use plan::Plan;
