// The roll: which calls are open where the scan stands, and where they and their parameters begin.
ghost use Rattle.std.specs.Prelude.{◌≤◌, vec_capacity};

use machine::RollEntry;

// It allocates when it is made, and never after.
#[derive(Drop)]
pub struct Roll {
    pub(crate) entries: Vec<RollEntry>,
    // the most that it may have
    pub(crate) limit: usize,
    ghost reserved: { limit ≤ vec_capacity entries },
}
