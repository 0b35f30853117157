// A program that is added at the end of a shelf.
ghost use Rattle.std.specs.Prelude.{◌≡◌, ◌+◌, ◌<◌, ◌≤◌, true, false, ◌++◌, map, length, is_some, vec_len, vec_capacity, MatchOption};
ghost use Rattle.std.specs.List.{flat_map};
ghost use Rattle.library.specs.Meaning.{NameLength, place as place_in};
ghost use Rattle.library.specs.Keeping.{strings_bytes, space_of, fits, with_program};
ghost use Rattle.shelf.specs.Adding.{row_of, bytes_of};
ghost use Rattle.shelf.specs.Shelved.{meaning_of, programs_of};

use crate::rows::{ProgramRow, StringRow};
use crate::shelf::Shelf;
use library::{Reader, Source, each_string};

// What strings leave of so many bytes; `None` if they do not fit.
fn room_after<S: Source>(strings: &S, room: usize) -> Option<usize>
    ensures { MatchOption result (room < strings_bytes (S.Source.strings strings.now)) (λ left. left + strings_bytes (S.Source.strings strings.now) ≡ room) }
{
    let mut left = room;
    for text in each_string(strings) {
        left = left.checked_sub(text.name.len())?;
        left = left.checked_sub(text.body.len())?;
    }
    Some(left)
}

// Adds bytes for which there is memory, each by a push that cannot allocate.
fn append(bytes: &mut Vec<u8>, more: &[u8])
    requires { vec_len bytes.old + length more.now ≤ vec_capacity bytes.old }
    ensures items { bytes.new.items ≡ bytes.old.items ++ more.now }
    ensures len { vec_len bytes.new ≡ vec_len bytes.old + length more.now }
    ensures capacity { vec_capacity bytes.new ≡ vec_capacity bytes.old }
{
    for byte in more {
        bytes.push_reserved(*byte);
    }
}

// Adds the rows and the bytes of strings.
fn add_strings<S: Source>(strings: &S, rows: &mut Vec<StringRow>, bytes: &mut Vec<u8>)
    requires rows { vec_len rows.old + length (S.Source.strings strings.now) ≤ vec_capacity rows.old }
    requires bytes { vec_len bytes.old + strings_bytes (S.Source.strings strings.now) ≤ vec_capacity bytes.old }
    ensures rows { rows.new.items ≡ rows.old.items ++ map row_of (S.Source.strings strings.now) }
    ensures bytes { bytes.new.items ≡ bytes.old.items ++ flat_map bytes_of (S.Source.strings strings.now) }
    ensures lens { (vec_len rows.new ≡ vec_len rows.old + length (S.Source.strings strings.now)) × (vec_len bytes.new ≡ vec_len bytes.old + strings_bytes (S.Source.strings strings.now)) }
    ensures capacity { (vec_capacity rows.new ≡ vec_capacity rows.old) × (vec_capacity bytes.new ≡ vec_capacity bytes.old) }
{
    for text in each_string(strings) {
        append(bytes, text.name);
        append(bytes, text.body);
        rows.push_reserved(StringRow {
            name: text.name.len(),
            body: text.body.len(),
        });
    }
}

impl Shelf {
    // Is there space for a program of that name with these strings?
    pub(crate) fn has_space<S: Source>(&self, name: &[u8], strings: &S) -> bool
        ensures { result ≡ fits (space_of (record { name = name.now; strings = S.Source.strings strings.now })) (meaning_of self.now).space }
    {
        let space = self.space();
        let Some(room) = space.bytes.checked_sub(name.len()) else {
            return false;
        };
        space.programs > 0
            && strings.count() <= space.strings
            && room_after(strings, room).is_some()
    }

    // Adds a program that has a name of its own and for which there is space.
    pub(crate) fn add<S: Source>(&mut self, name: &[u8], strings: &S)
        requires named { NameLength name.now }
        requires absent { is_some (place_in name.now (programs_of self.old)) ≡ false }
        requires fitting { fits (space_of (record { name = name.now; strings = S.Source.strings strings.now })) (meaning_of self.old).space ≡ true }
        ensures { meaning_of self.new ≡ with_program (meaning_of self.old) (record { name = name.now; strings = S.Source.strings strings.now }) }
    {
        append(&mut self.bytes, name);
        add_strings(strings, &mut self.strings, &mut self.bytes);
        self.programs.push_reserved(ProgramRow {
            name: name.len(),
            strings: strings.count(),
        });
    }
}
