// A row for a name, whatever it is to mean.
ghost use Rattle.std.specs.Prelude.{◌≡◌, ◌+◌, ◌<◌, ◌≤◌, None, [], length, take, vec_len};
ghost use Rattle.machine.specs.Texts.{first_place};
ghost use Rattle.machine.specs.Dictionary.{Meaning, string, new_string, with_row};
ghost use Rattle.dictionary.specs.declared.finding.Place.{Place};
ghost use Rattle.dictionary.specs.Decoding.{body_size, meaning_in};
ghost use Rattle.dictionary.specs.Meant.{rows_in, dictionary_in};
ghost use Rattle.dictionary.specs.Finding.{row_named, RowAt, Standing};
ghost use Rattle.dictionary.specs.Editing.{RowsEdited, Room, with_rows};

use crate::dictionary::Dictionary;
use crate::finding::Place;
use crate::rows::{Extent, Row, RowMeaning};
use area::splice;

impl Dictionary {
    // A new name comes last, and is an empty string.
    fn add(&mut self, store: &mut [u8], name: &[u8]) -> Place
        requires whole { self.old.used ≤ length store.old }
        requires absent { first_place (row_named name.now) (rows_in self.old store.old) ≡ None }
        requires memory { vec_len self.old.rows < self.old.most_rows }
        requires fits { self.old.used + length name.now ≤ length store.old }
        ensures rows { rows_in self.new store.new ≡ with_row name.now (string (new_string [])) (rows_in self.old store.old) }
        ensures place { Standing self.new store.new name.now result }
        ensures earlier { (p : Place) → RowAt self.old p → RowAt self.new p }
        ensures front { take self.old.row_bytes store.new ≡ take self.old.row_bytes store.old }
        ensures others { RowsEdited self.old self.new store.old store.new }
    {
        let row = Row {
            name: name.len(),
            meaning: RowMeaning::String(Extent {
                length: 0,
                pointer: 0,
            }),
        };
        let place = Place {
            index: self.rows.len(),
            start: self.row_bytes,
            row,
        };
        let start = self.row_bytes;
        let used = self.used;
        self.used = splice(store, used, start..start, name);
        self.row_bytes = start + name.len();
        self.rows.push_reserved(row);
        place
    }

    // The row of a name, which is added where there is none.
    pub(crate) fn stand(&mut self, store: &mut [u8], name: &[u8]) -> Place
        requires whole { self.old.used ≤ length store.old }
        requires room { (m : Meaning) × Room self.old store.old (with_rows (with_row name.now m (rows_in self.old store.old)) (dictionary_in self.old store.old)) }
        ensures rows { (m : Meaning) → with_row name.now m (rows_in self.new store.new) ≡ with_row name.now m (rows_in self.old store.old) }
        ensures place { Standing self.new store.new name.now result }
        ensures earlier { (p : Place) → RowAt self.old p → RowAt self.new p }
        ensures front { take self.old.row_bytes store.new ≡ take self.old.row_bytes store.old }
        ensures others { RowsEdited self.old self.new store.old store.new }
    {
        match self.find(store, name) {
            Some(place) => place,
            None => self.add(store, name),
        }
    }

    // A row of that name means this now; a new name comes last.
    pub(crate) fn put(&mut self, store: &mut [u8], name: &[u8], meaning: RowMeaning, body: &[u8])
        requires whole { self.old.used ≤ length store.old }
        requires size { body_size meaning ≡ length body.now }
        requires room { Room self.old store.old (with_rows (with_row name.now (meaning_in meaning body.now) (rows_in self.old store.old)) (dictionary_in self.old store.old)) }
        ensures rows { rows_in self.new store.new ≡ with_row name.now (meaning_in meaning body.now) (rows_in self.old store.old) }
        ensures others { RowsEdited self.old self.new store.old store.new }
    {
        let place = self.stand(store, name);
        let size = place.row.meaning.body_size();
        self.edit(store, place, 0..size, body, meaning);
    }
}
