// The roll: what is open where the scan stands.

// What begins at an entry of the roll.
#[derive(Clone, Copy, Debug, PartialEq, Eq)]
pub enum Begins {
    ActiveCall,
    PassiveCall,
    Parameter,
}

// It begins behind the first `at` bytes of the left text.
#[derive(Clone, Copy, Debug, PartialEq, Eq)]
pub struct RollEntry {
    pub begins: Begins,
    pub at: usize,
}
