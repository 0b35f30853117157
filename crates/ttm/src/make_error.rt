// Why no processor was made.

use refusal::Refusal;

#[derive(Clone, Copy, Debug, PartialEq, Eq)]
pub enum MakeError {
    // a limit that is not granted
    Refused(Refusal),
    // memory is wanting
    NoMemory,
}
