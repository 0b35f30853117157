// The scan of an expansion: its two texts, its roll, and its rules but the call's.

#![tactic(auto)]

mod changing;
mod fields;
mod front;
mod matching;
mod moving;
mod open_calls;
mod parameters;
mod roll;
mod rules;
mod running;
mod texts;
mod writing;

pub use front::rule_at_front;
pub use matching::find_match;
pub use parameters::Parameters;
pub use roll::Roll;
pub use rules::{end_of_text, follow};
pub use running::{pass_plain, plain_run};
pub use texts::ScanTexts;
