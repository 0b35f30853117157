// What an expansion may need, and what it has needed.
use machine::Amounts;

#[derive(Clone, Copy, Debug, PartialEq, Eq)]
pub struct Meter {
    // the limits, and the allowance of steps
    pub bounds: Amounts,
    // of each kind, the largest need that was let pass
    pub needs: Amounts,
    // how many numbers were created in the processor's life
    pub created: usize,
    // did a value of this expansion want a created number?
    pub wanted: bool,
}
