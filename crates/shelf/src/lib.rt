// A shelf: a library of bounded size that stores programs and deletes them. It allocates when it is made, and never after.

#![tactic(auto)]

mod adding;
mod keeping;
mod making;
mod places;
mod reading;
mod removing;
mod rows;
mod shelf;
mod views;

pub use shelf::Shelf;
