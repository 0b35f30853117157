// Where a row is found by its name.
ghost use Rattle.std.specs.Prelude.{◌≡◌, ◌^◌, ◌<◌, ◌≤◌, None, length, MatchOption};
ghost use Rattle.machine.specs.Texts.{first_place};
ghost use Rattle.dictionary.specs.Decoding.{body_size, row_size};
ghost use Rattle.dictionary.specs.Meant.{rows_in};
ghost use Rattle.dictionary.specs.Finding.{row_named, Standing};

use crate::dictionary::Dictionary;
use crate::rows::{Row, RowMeaning};

// A row, which one it is, and where its bytes begin.
#[derive(Clone, Copy)]
pub(crate) struct Place {
    pub(crate) index: usize,
    pub(crate) start: usize,
    pub(crate) row: Row,
}

impl RowMeaning {
    // The bytes of its body.
    pub(crate) fn body_size(&self) -> usize
        ensures { result ≡ body_size self.now }
    {
        match self {
            RowMeaning::String(extent) => extent.length,
            RowMeaning::BuiltIn(_) => 0,
        }
    }
}

impl Row {
    // The bytes of its name and body.
    pub(crate) fn size(&self) -> usize
        requires { row_size self.now < 2 ^ 64 }
        ensures { result ≡ row_size self.now }
    {
        self.name + self.meaning.body_size()
    }
}

impl Dictionary {
    // The first row of that name.
    pub(crate) fn find(&self, store: &[u8], name: &[u8]) -> Option<Place>
        requires { self.now.used ≤ length store.now }
        ensures { MatchOption result (first_place (row_named name.now) (rows_in self.now store.now) ≡ None) (Standing self.now store.now name.now) }
    {
        let mut start = 0;
        for (index, row) in self.rows.iter().enumerate() {
            let end = start + row.name;
            if &store[start..end] == name {
                return Some(Place {
                    index,
                    start,
                    row: *row,
                });
            }
            start += row.size();
        }
        None
    }
}
