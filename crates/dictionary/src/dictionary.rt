// What a dictionary holds.
ghost use Rattle.std.specs.Prelude.{◌≡◌, ◌+◌, ◌≤◌, sum_by, vec_len, vec_capacity};
ghost use Rattle.dictionary.specs.Decoding.{row_size, class_size};

use crate::rows::{ClassRow, Row};

// The most classes that there are at a time.
pub(crate) const CLASSES: usize = 16;

#[derive(Drop)]
pub struct Dictionary {
    // for each built-in, in the order of the table, whether it stands under its own name
    pub(crate) originals: [bool; 46],
    // strings and copied built-ins
    pub(crate) rows: Vec<Row>,
    pub(crate) classes: Vec<ClassRow>,
    // bytes of the store that the rows take
    pub(crate) row_bytes: usize,
    // those, and behind them the bytes of the names of classes: the bytes in use
    pub(crate) used: usize,
    // the most rows that there is memory for
    pub(crate) most_rows: usize,
    ghost rows_reserved: { most_rows ≤ vec_capacity rows },
    ghost classes_reserved: { 16 ≤ vec_capacity classes },
    ghost rows_bounded: { vec_len rows ≤ most_rows },
    ghost classes_bounded: { vec_len classes ≤ 16 },
    // the bytes lie without gaps
    ghost rows_filled: { row_bytes ≡ sum_by row_size rows.items },
    ghost classes_filled: { used ≡ row_bytes + sum_by class_size classes.items },
}
