// A text that begins an area which was lent for it, and goes on behind it.

#![tactic(auto)]

mod text_area;
mod writing;

pub use text_area::TextArea;
