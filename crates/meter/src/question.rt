// The questions that compare a need with a bound.

#[derive(Clone, Copy, Debug, PartialEq, Eq)]
pub enum Question {
    // does the source fit the scan?
    Source,
    // is a step left?
    Step,
    // does the roll fit?
    Roll,
    // do the names fit, the store, what is printed?
    Names,
    Store,
    Print,
    // do left text, right text and value fit the scan?
    Value,
}
