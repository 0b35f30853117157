// Texts that are read and not changed: how much of one selection passes, its marks, its place in an order, and classes of characters.

#![tactic(auto)]

mod classes;
mod comparing;
mod levels;
mod marks;
mod passing;

pub use classes::{begins_with_member, class_of_bytes, class_of_others, class_run};
pub use comparing::{choose, is_lower};
pub use levels::zero_level;
pub use marks::{
    copy_without_marks, has_creation_mark, highest_mark, length_without_marks, segment_place,
};
pub use passing::bytes_to_pass;
