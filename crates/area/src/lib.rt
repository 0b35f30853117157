// Texts packed at the front of lent bytes: a part of one replaced, a text found, matches marked. Nothing is allocated.

#![tactic(auto)]

mod finding;
mod marking;
mod splicing;
mod splicing_within;

pub use finding::{begins, find};
pub use marking::{Marked, mark_matches};
pub use splicing::{remove, splice};
pub use splicing_within::splice_within;
