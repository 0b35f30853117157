// Edits of rows, each with its bytes.
ghost use Rattle.std.specs.Prelude.{◌≡◌, ◌+◌, ◌-◌, ◌<◌, ◌≤◌, length, slice_set, slice_range};
ghost use Rattle.std.specs.List.{splice};
ghost use Rattle.area.specs.Pieces.{LiesClear};
ghost use Rattle.dictionary.specs.Decoding.{body_size, row_size, meaning_in};
ghost use Rattle.dictionary.specs.Meant.{rows_in};
ghost use Rattle.dictionary.specs.Finding.{RowAt, name_at, body_at, meaning_there};
ghost use Rattle.dictionary.specs.Editing.{row_of, RowsEdited};

use crate::dictionary::Dictionary;
use crate::finding::Place;
use crate::rows::{Row, RowMeaning};
use area::{splice, splice_within};
use std::ops::Range;

impl Dictionary {
    // A part of a body gives way to a piece, and the row means that from now on.
    pub(crate) fn edit(
        &mut self,
        store: &mut [u8],
        place: Place,
        part: Range<usize>,
        piece: &[u8],
        meaning: RowMeaning,
    )
        requires whole { self.old.used ≤ length store.old }
        requires place { RowAt self.old place }
        requires part { (part.start ≤ part.end) × (part.end ≤ body_size place.row.meaning) }
        requires size { body_size meaning + (part.end - part.start) ≡ body_size place.row.meaning + length piece.now }
        requires fits { self.old.used - (part.end - part.start) + length piece.now ≤ length store.old }
        ensures place { RowAt self.new (meaning_there place meaning) }
        ensures row { rows_in self.new store.new ≡ slice_set (rows_in self.old store.old) place.index (row_of (name_at place store.old) (meaning_in meaning (splice (body_at place store.old) part.start part.end piece.now))) }
        ensures others { RowsEdited self.old self.new store.old store.new }
    {
        let body = place.start + place.row.name;
        let start = body + part.start;
        let end = body + part.end;
        let used = self.used;
        self.row_bytes = self.row_bytes - (end - start) + piece.len();
        self.used = splice(store, used, start..end, piece);
        self.rows[place.index] = Row {
            name: place.row.name,
            meaning,
        };
    }

    // A body gives way to a piece of the store, and the row means that from now on.
    pub(crate) fn edit_within(
        &mut self,
        store: &mut [u8],
        place: Place,
        piece: Range<usize>,
        meaning: RowMeaning,
    )
        requires whole { self.old.used ≤ length store.old }
        requires place { RowAt self.old place }
        requires piece { (piece.start ≤ piece.end) × (piece.end ≤ self.old.used) }
        requires clear { LiesClear (place.start + place.row.name) (place.start + row_size place.row) piece.start piece.end }
        requires size { body_size meaning ≡ piece.end - piece.start }
        requires fits { self.old.used - body_size place.row.meaning + (piece.end - piece.start) ≤ length store.old }
        ensures row { rows_in self.new store.new ≡ slice_set (rows_in self.old store.old) place.index (row_of (name_at place store.old) (meaning_in meaning (slice_range store.old piece.start piece.end))) }
        ensures others { RowsEdited self.old self.new store.old store.new }
    {
        let start = place.start + place.row.name;
        let end = place.start + place.row.size();
        let size = piece.end - piece.start;
        let used = self.used;
        self.row_bytes = self.row_bytes - (end - start) + size;
        self.used = splice_within(store, used, start..end, piece);
        self.rows[place.index] = Row {
            name: place.row.name,
            meaning,
        };
    }
}
