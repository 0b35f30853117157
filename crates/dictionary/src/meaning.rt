// What a name means.
use crate::string_place::StringPlace;
use machine::BuiltIn;

#[derive(Clone, Copy)]
pub enum Meaning {
    BuiltIn(BuiltIn),
    String(StringPlace),
}
