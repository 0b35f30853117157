// The rules of the scan, in the order in which they are tried.

#[derive(Clone, Copy, Debug, PartialEq, Eq)]
pub enum Rule {
    // an end of line is dropped
    EndOfLine,
    // `@` is dropped, and the byte after it moves left
    Escape,
    // `##<` opens a passive call
    OpenPassive,
    // `#<` opens an active call
    OpenActive,
    // `<` is dropped with its match, and all between moves left
    Bracket,
    // `;` inside a call begins a parameter
    Separator,
    // `>` inside a call makes it
    Close,
    // any other byte moves left
    Other,
}
