// The values that the language's functions name, as places: how long each is, and how it is written.

#![tactic(auto)]

mod filling;
mod measuring;
mod naming;
mod putting;
mod sources;
mod taking;
mod value;
mod writing;

pub use sources::Sources;
pub use value::Value;
