// The lines of an image: each string beside the name of its program.
ghost use Rattle.std.specs.Prelude.{◌≡◌, ◌≤◌, length, drop};
ghost use Rattle.std.specs.List.{list_all};
ghost use Rattle.std.specs.Iterator.{YieldsFirstBy, at_most};
ghost use Rattle.code.specs.Meaning.{body_byte};
ghost use Rattle.image.specs.Layout.{proper_bytes};
ghost use Rattle.image.specs.Contents.{entries_of_rows, text_size, text_sizes, line_at};

use crate::entry::{Entry, EntryBytes};
use code::Code;
use library::StringView;

// The name of a program, and one of its strings.
#[derive(Clone, Copy)]
pub struct Line<'a> {
    pub program: &'a [u8],
    pub string: StringView<'a>,
}

// May the byte stand in a body? It is a character, an end of line or a mark.
fn is_body_byte<C: Code>(code: &C, byte: u8) -> bool
    ensures { result ≡ body_byte C.meaning byte }
{
    code.is_character(byte)
        || byte == code.end_of_line()
        || byte == code.creation_mark()
        || code.mark_number(byte).is_some()
}

fn are_characters<C: Code>(code: &C, bytes: &[u8]) -> bool
    ensures { result ≡ list_all C.meaning.character bytes.now }
{
    bytes.iter().all(|byte| code.is_character(*byte))
}

fn are_body_bytes<C: Code>(code: &C, bytes: &[u8]) -> bool
    ensures { result ≡ list_all (body_byte C.meaning) bytes.now }
{
    bytes.iter().all(|byte| is_body_byte(code, *byte))
}

impl<'a> Line<'a> {
    ghost use Rattle.image.specs.Reading.{entry_read, line_read};

    // The line of an entry, whose name and body begin the texts, and the texts behind them.
    pub fn split(entry: Entry<'a>, texts: &'a [u8]) -> (Line<'a>, &'a [u8])
        requires { text_size (entry_read entry) ≤ length texts.now }
        ensures line { line_read result.0 ≡ line_at (entry_read entry.entry) texts.now }
        ensures rest { result.1.now ≡ drop (text_size (entry_read entry.entry)) texts.now }
    {
        let (name, behind) = texts.split_at(entry.name_length());
        let (body, rest) = behind.split_at(entry.body_length());
        let string = StringView { name, body };
        let line = Line {
            program: entry.program(),
            string,
        };
        (line, rest)
    }

    // Are its names all characters, and its body all characters, ends of lines and marks?
    pub fn is_proper<C: Code>(&self, code: &C) -> bool
        ensures { result ≡ proper_bytes C.meaning (line_read self.now) }
    {
        are_characters(code, self.program)
            && are_characters(code, self.string.name)
            && are_body_bytes(code, self.string.body)
    }
}

// The lines of entries whose names and bodies follow one another in the texts.
#[derive(Drop)]
pub struct Lines<'a> {
    pub entries: &'a [EntryBytes],
    pub texts: &'a [u8],
    ghost enough: { text_sizes (entries_of_rows entries.now) ≤ length texts.now },
}

impl<'a> Iterator for Lines<'a> {
    ghost use Rattle.image.specs.Reading.{line_read, lines_left};

    type Item = Line<'a>;

    ghost next_gives = { YieldsFirstBy line_read lines_left };

    ghost remaining = { λ l. at_most (length l.entries.now) };

    fn next(&mut self) -> Option<Line<'a>> {
        let (first, rest) = self.entries.split_first()?;
        let (line, texts) = Line::split(Entry { bytes: first }, self.texts);
        *self = Lines {
            entries: rest,
            texts,
        };
        Some(line)
    }
}
