// What an expansion has come to.

use refusal::Refusal;

#[derive(Clone, Copy)]
pub struct Expanded {
    // how long the text is, or why there is none
    pub outcome: Result<usize, Refusal>,
    // how much was printed
    pub printed: usize,
    // how long the name of the call is that was refused
    pub called: usize,
}
