// What the programs that show an image share: the demonstration image, why an image is not shown, and how a program ends.

#![tactic(auto)]

mod demo;
mod ending;
mod failure;

pub use demo::DEMO;
pub use ending::exit_code;
pub use failure::Failure;
