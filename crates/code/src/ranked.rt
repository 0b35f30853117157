// The order of a code's bytes.
ghost use Rattle.std.specs.Prelude.{◌≡◌, ℕ, List, length};
ghost use Rattle.code.specs.Order.{Order};

use crate::Code;

// A code whose ranked bytes are listed, from the lowest to the highest, with their ranks.
pub trait Ranked: Code {
    ghost order: { List ℕ };

    ghost ranks: { List ℕ };

    // How many bytes have a rank.
    fn ranked_bytes(&self) -> u8
        ensures { result ≡ length order };

    // The list has every byte that the code ranks, and no other, and the ranks rise along it.
    ghost ordered: { Order Self.Code.meaning order ranks };
}
