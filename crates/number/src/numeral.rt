// An integer as it was written.

#[derive(Clone, Copy, Debug, PartialEq, Eq)]
pub struct Numeral {
    // is a sign written?
    pub signed: bool,
    // how many digits are written
    pub digits: usize,
    // kept where at most 18 digits are written
    pub value: Option<i64>,
}
