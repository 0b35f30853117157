// The parameters of a call, which lie in the left text.
ghost use Rattle.std.specs.Prelude.{◌≡◌, length};
ghost use Rattle.machine.specs.World.{parameter};

use crate::fields::field;
use machine::RollEntry;
use std::marker::Model;

#[derive(Drop)]
pub struct Parameters<'a> {
    pub(crate) left: &'a [u8],
    // where each begins
    pub(crate) entries: &'a [RollEntry],
}

impl<'a> Model for Parameters<'a> {
    ghost use Rattle.std.specs.Prelude.{List, length, map};
    ghost use Rattle.std.specs.List.{range_with_len};
    ghost use Rattle.machine.specs.Texts.{Text};
    ghost use Rattle.machine.specs.Scan.{field};

    ghost Value = { List Text };

    ghost view = { λ p. map (field p.entries.now p.left.now) (range_with_len 0 (length p.entries.now)) };
}

impl<'a> Parameters<'a> {
    pub fn len(&self) -> usize
        ensures { result ≡ length self.now }
    {
        self.entries.len()
    }

    // A parameter, or nothing where there are fewer.
    pub fn get(&self, n: usize) -> &'a [u8]
        ensures { result.now ≡ parameter n self.now }
    {
        if n < self.entries.len() {
            field(self.entries, self.left, n)
        } else {
            &[]
        }
    }
}
