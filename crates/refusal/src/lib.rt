// Why a call is refused: one named case for each refusal, and the number of each.

#![tactic(auto)]

ghost use Rattle.std.specs.Prelude.{◌≡◌, Some};
ghost use Rattle.refusal.specs.Names.{name_of as name_of_refusal};
ghost use Rattle.refusal.specs.Numbers.{NumbersDiffer, number_of as number_of_refusal};

use std::error::Error;
use std::fmt;

#[derive(Clone, Copy, PartialEq, Eq, Debug)]
pub enum Refusal {
    // a limit that make does not grant
    LimitOutOfRange = 1,
    // the image has no two bytes, or names another code
    WrongCode = 2,
    // more than 128 strings, or the contents are cut short
    ContentsIncomplete = 3,
    // a program name that is not 1 to 20 bytes long, or not filled with zeros
    ProgramNameMalformed = 4,
    // the strings of a program do not stand together
    ProgramSplit = 5,
    // names and bodies do not fill the rest of the image exactly
    TextsMisfit = 6,
    // a byte that may not stand in a name or in a body
    ForeignByte = 7,
    // an area that is shorter than its limit
    AreaTooShort = 10,
    // an allowance of more than 1,000,000 steps
    AllowanceOutOfRange = 11,
    // a byte of the source that is neither a character nor an end of line
    ForeignSource = 12,
    // the source does not fit the scan limit
    SourceTooLong = 13,
    // no step is left
    OutOfSteps = 14,
    // the roll does not fit its limit
    RollFull = 15,
    // a `<` without its `>`
    Unmatched = 16,
    // the text ends inside a call
    CallOpen = 17,
    // the called name is not defined, after retrieval
    FunctionUndefined = 18,
    // the function wants more parameters
    TooFewParameters = 19,
    // a parameter that is no decimal integer
    NoInteger = 20,
    // a sign where none may be
    SignedInteger = 21,
    // an integer with too many digits
    TooManyDigits = 22,
    // no class of that name is defined
    ClassUndefined = 23,
    // the dictionary has no such name
    NameUndefined = 24,
    // the name is a built-in function's
    NotAString = 25,
    // a program name that is not 1 to 20 bytes long
    ProgramNameLength = 26,
    // the library is locked
    Locked = 27,
    // a program of that name is there already
    ProgramPresent = 28,
    // no program of that name is there
    ProgramAbsent = 29,
    // not enough programs, strings or bytes are left
    LibraryFull = 30,
    // a fetched name or body with a byte that may not stand in it
    ForeignText = 31,
    // the divisor is 0, or the quotient has more than 15 digits
    NoQuotient = 32,
    // a segment mark past number 62
    NoMarkNumber = 33,
    // all numbers up to 9999 are created
    NoCreatedNumber = 34,
    // more than 16 classes
    TooManyClasses = 35,
    // strings and copied built-ins do not fit the names limit
    NamesFull = 36,
    // names and bodies do not fit the store limit
    StoreFull = 37,
    // what is printed does not fit the print limit
    PrintFull = 38,
    // left text, right text and value do not fit the scan limit
    ScanFull = 39,
}

impl Refusal {
    // The number by which the refusal is known; no two have the same.
    pub fn number(self) -> u8
        ensures value { result ≡ number_of_refusal self }
        ensures distinct { NumbersDiffer }
    {
        self as u8
    }

    // What the refusal is called.
    pub fn name(self) -> &'static str
        ensures { result.now ≡ name_of_refusal self }
    {
        match self {
            Refusal::LimitOutOfRange => "limit out of range",
            Refusal::WrongCode => "wrong code",
            Refusal::ContentsIncomplete => "contents incomplete",
            Refusal::ProgramNameMalformed => "program name malformed",
            Refusal::ProgramSplit => "program split",
            Refusal::TextsMisfit => "texts misfit",
            Refusal::ForeignByte => "foreign byte",
            Refusal::AreaTooShort => "area too short",
            Refusal::AllowanceOutOfRange => "allowance out of range",
            Refusal::ForeignSource => "foreign source",
            Refusal::SourceTooLong => "source too long",
            Refusal::OutOfSteps => "out of steps",
            Refusal::RollFull => "roll full",
            Refusal::Unmatched => "unmatched",
            Refusal::CallOpen => "call open",
            Refusal::FunctionUndefined => "function undefined",
            Refusal::TooFewParameters => "too few parameters",
            Refusal::NoInteger => "no integer",
            Refusal::SignedInteger => "signed integer",
            Refusal::TooManyDigits => "too many digits",
            Refusal::ClassUndefined => "class undefined",
            Refusal::NameUndefined => "name undefined",
            Refusal::NotAString => "not a string",
            Refusal::ProgramNameLength => "program name length",
            Refusal::Locked => "locked",
            Refusal::ProgramPresent => "program present",
            Refusal::ProgramAbsent => "program absent",
            Refusal::LibraryFull => "library full",
            Refusal::ForeignText => "foreign text",
            Refusal::NoQuotient => "no quotient",
            Refusal::NoMarkNumber => "no mark number",
            Refusal::NoCreatedNumber => "no created number",
            Refusal::TooManyClasses => "too many classes",
            Refusal::NamesFull => "names full",
            Refusal::StoreFull => "store full",
            Refusal::PrintFull => "print full",
            Refusal::ScanFull => "scan full",
        }
    }
}

// It is shown by what it is called.
impl fmt::Display for Refusal {
    ghost output = { λ refusal. Some (name_of_refusal refusal) };

    fn fmt<W: fmt::Write>(&self, f: &mut fmt::Formatter<W>) -> fmt::Result {
        f.write_str(self.name())
    }
}

impl Error for Refusal {}
