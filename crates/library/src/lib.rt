// The interfaces of a library of programs, for reading and for keeping; views of programs and strings where they lie, and
// iterators over them; the name of a program as a type; finding a program by its name; a library that is lent, and one behind a
// lock; and what a host does with any library, with the laws of keeping.

#![tactic(auto)]

mod counting;
mod iterators;
mod keeper;
mod lending;
mod lent;
mod lock;
mod lookup;
mod program_name;
mod program_view;
mod reader;
mod request;
mod space;
mod string_view;
mod strings;
mod using;

pub use counting::count_strings;
pub use iterators::{Programs, Strings, each_program, each_string};
pub use keeper::Keeper;
pub use lending::Lends;
pub use lock::Lock;
pub use lookup::find_program;
pub use program_name::ProgramName;
pub use program_view::{ProgramView, view_program};
pub use reader::Reader;
pub use request::{Request, carry_out, carry_out_all};
pub use space::Space;
pub use string_view::StringView;
pub use strings::{Source, StringViews};
pub use using::{store_and_find, try_out};
