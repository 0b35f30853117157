// A character code: what one means, the laws that every code keeps, and the two codes that the product has.

#![tactic(auto)]

ghost use Rattle.std.specs.Prelude.{◌≡◌};
ghost use Rattle.code.specs.Meaning.{CodeMeaning, CodeLaws};
ghost use Rattle.code.specs.Meaning.{byte_of as byte_of_char, mark_of as mark_of_number, rank_of as rank_of_byte};

mod ascii;
mod ebcdic;
mod lent;
mod ranked;

pub use ascii::Ascii;
pub use ebcdic::Ebcdic;
pub use ranked::Ranked;

// The interface of a character code. Each function answers exactly the meaning, for every argument.
pub trait Code {
    ghost meaning: { CodeMeaning };

    ghost laws: { CodeLaws meaning };

    // The number by which an image names its code.
    fn number(&self) -> u8
        ensures { result ≡ meaning.number };

    // Is this byte a character?
    fn is_character(&self, byte: u8) -> bool
        ensures { result ≡ meaning.character byte };

    // The byte of a named character: the letters, the digits and # < > ; @ , + - ?
    fn byte_of(&self, named: char) -> Option<u8>
        ensures { result ≡ byte_of_char meaning named };

    fn end_of_line(&self) -> u8
        ensures { result ≡ meaning.end_of_line };

    // Segment mark `n`, for `n` from 1 to 62.
    fn segment_mark(&self, n: u8) -> Option<u8>
        ensures { result ≡ mark_of_number meaning n };

    // The number of a segment mark; `None` for any other byte.
    fn mark_number(&self, byte: u8) -> Option<u8>
        ensures { result ≡ meaning.mark_number byte };

    fn creation_mark(&self) -> u8
        ensures { result ≡ meaning.creation_mark };

    // The rank of a character or of the end of line; `None` for any other byte.
    fn rank(&self, byte: u8) -> Option<u8>
        ensures { result ≡ rank_of_byte meaning byte };

    fn lower(&self, byte: u8) -> u8
        ensures { result ≡ meaning.lower byte };
}
