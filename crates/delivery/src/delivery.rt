// How a call's value goes into the texts.

// Where the value of a call goes.
#[derive(Clone, Copy)]
pub enum Placement {
    // before the right text
    Active,
    // behind the left text
    Passive,
    // in the place of the right text
    Break,
}

// It is read off before the value is written.
#[derive(Clone, Copy)]
pub struct Delivery {
    pub placement: Placement,
    // how many bytes the left text has, with the call in it
    pub left: usize,
}
