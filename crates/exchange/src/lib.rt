// Two libraries: whether they hold the same programs and mean the same, and the programs of one stored in the other.

#![tactic(auto)]

mod agreement;
mod compare;
mod copying;

pub use agreement::same_library;
pub use compare::same_programs;
pub use copying::store_programs;
