// The dictionary of a processor: its strings, copied and original built-ins and classes. The bytes of names and bodies lie
// in a store that the host lends for each call. It allocates when it is made, and never after.

#![tactic(auto)]

mod amounts;
mod class_place;
mod classes;
mod copying;
mod defining;
mod dictionary;
mod editing;
mod finding;
mod looking_up;
mod making;
mod marking;
mod meaning;
mod needs;
mod originals;
mod removing;
mod rows;
mod standing;
mod string_place;
mod strings;

pub use amounts::{ClassNeeds, Needs};
pub use dictionary::Dictionary;
pub use meaning::Meaning;
pub use rows::Extent;
pub use string_place::StringPlace;
