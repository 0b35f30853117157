// The programs of an image, as they lie in it.
ghost use Rattle.std.specs.Prelude.{◌≡◌, ◌+◌, ◌-◌, ◌≤◌, length, drop};
ghost use Rattle.std.specs.List.{prefix_len};
ghost use Rattle.std.specs.Str.{bytes_eq};
ghost use Rattle.std.specs.Option.{option_map, is_some};
ghost use Rattle.std.specs.Iterator.{YieldsFirstBy, at_most};
ghost use Rattle.library.specs.Meaning.{program_at, name_at, string_at};
ghost use Rattle.library.specs.Views.{string_viewed};
ghost use Rattle.image.specs.Contents.{first_entry, entries_of_rows, program_of, text_sizes};

use crate::contents::{Contents, string_entry, text_size};
use crate::entry::{Entry, EntryBytes};
use crate::granted::Image;
use crate::line::Line;
use library::StringView;

// How many entries from the first on are of the program of that name.
fn count_strings(entries: &[EntryBytes], name: &[u8]) -> usize
    ensures value { result ≡ prefix_len (λ r. bytes_eq (program_of (first_entry r)) name.now) entries.now }
    ensures within { result ≤ length entries.now }
{
    entries
        .iter()
        .take_while(|bytes| Entry { bytes: *bytes }.is_of(name))
        .count()
}

// A program's name, the entries before it, its own, and the texts of all entries.
#[derive(Clone, Copy)]
pub struct ProgramView<'a> {
    pub name: &'a [u8],
    pub before: &'a [EntryBytes],
    pub entries: &'a [EntryBytes],
    pub texts: &'a [u8],
    ghost few: { length before.now + length entries.now ≤ 128 },
    ghost there: { text_sizes (entries_of_rows before.now) + text_sizes (entries_of_rows entries.now) ≤ length texts.now },
}

// The programs of an image from one of its entries on.
#[derive(Drop)]
pub struct Programs<'a> {
    image: Image<'a>,
    start: usize,
    ghost within: { start ≤ length image.contents.entries.now },
}

impl<'a> Image<'a> {
    ghost use Rattle.image.specs.Programs.{program_viewed, programs_left};
    ghost use Rattle.image.specs.Granting.{programs_held};

    pub(crate) fn iter(&self) -> Programs<'a>
        ensures { programs_left result ≡ programs_held self.now }
    {
        Programs {
            image: *self,
            start: 0,
        }
    }

    // Its programs from one of them on, counted from 0.
    pub(crate) fn programs_from(&self, program: usize) -> Programs<'a>
        ensures { programs_left result ≡ drop program (programs_held self.now) }
    {
        let mut programs = self.iter();
        for _ in 0..program {
            if !programs.pass() {
                break;
            }
        }
        programs
    }

    // One of its programs, counted from 0.
    pub(crate) fn program(&self, program: usize) -> Option<ProgramView<'a>>
        ensures { option_map program_viewed result ≡ program_at (programs_held self.now) program }
    {
        self.programs_from(program).next()
    }
}

impl<'a> Programs<'a> {
    ghost use Rattle.image.specs.Programs.{programs_left};

    // Goes past the first program, whose entries are counted and not shown; whether there is one.
    fn pass(&mut self) -> bool
        ensures passed { programs_left self.new ≡ drop 1 (programs_left self.old) }
        ensures found { result ≡ is_some (program_at (programs_left self.old) 0) }
    {
        let (_, left) = self.image.contents.entries.split_at(self.start);
        let Some((first, rest)) = left.split_first() else {
            return false;
        };
        let name = Entry { bytes: first }.program();
        self.start += 1 + count_strings(rest, name);
        true
    }

    // The name of the first program, read off its first entry alone.
    pub fn first_name(&self) -> Option<&'a [u8]>
        ensures { option_map (λ x. x.now) result ≡ name_at (programs_left self.now) 0 }
    {
        let (_, left) = self.image.contents.entries.split_at(self.start);
        let bytes = left.first()?;
        Some(Entry { bytes }.program())
    }

    // A string of the first program, counted from 0: no entry behind its own is read.
    pub fn first_string(&self, string: usize) -> Option<StringView<'a>>
        ensures { option_map string_viewed result ≡ string_at (programs_left self.now) 0 string }
    {
        let Contents { entries, texts } = self.image.contents;
        let (_, left) = entries.split_at(self.start);
        let name = self.first_name()?;
        let bytes = string_entry(left, name, string)?;
        let (before, _) = entries.split_at(self.start + string);
        let (_, texts) = texts.split_at(text_size(before));
        let (line, _) = Line::split(Entry { bytes }, texts);
        Some(line.string)
    }
}

impl<'a> Iterator for Programs<'a> {
    ghost use Rattle.image.specs.Programs.{program_viewed, programs_left};

    type Item = ProgramView<'a>;

    ghost next_gives = { YieldsFirstBy program_viewed programs_left };

    ghost remaining = { λ p. at_most (length p.image.contents.entries.now - p.start) };

    fn next(&mut self) -> Option<ProgramView<'a>> {
        let Contents { entries, texts } = self.image.contents;
        let (before, left) = entries.split_at(self.start);
        let (first, rest) = left.split_first()?;
        let name = Entry { bytes: first }.program();
        let (own, _) = left.split_at(1 + count_strings(rest, name));
        self.start += own.len();
        Some(ProgramView {
            name,
            before,
            entries: own,
            texts,
        })
    }
}
