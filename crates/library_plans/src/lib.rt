// What calls of the functions on the library come to: STORE DELETE NAMES PDF.

#![tactic(auto)]

mod asking;
mod deleting;
mod naming;
mod program_defined;
mod storing;
mod strings;

pub use deleting::plan_delete;
pub use naming::plan_names;
pub use program_defined::plan_program_defined;
pub use storing::plan_store;
