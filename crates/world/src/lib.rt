// What calls have effects on: the dictionary with its store, the library, what is printed, and the name of the call.

#![tactic(auto)]

mod world;

pub use world::World;
