// What an expansion answers.
ghost use Rattle.std.specs.Prelude.{◌≡◌};
ghost use Rattle.machine.specs.Chain.{nothing};

use machine::Amounts;
use refusal::Refusal;

#[derive(Clone, Copy, Debug, PartialEq, Eq)]
pub struct Report {
    // bytes of the text, which begins the scan area
    pub text: usize,
    // bytes printed, which begin the print area
    pub printed: usize,
    // what was needed of each limit, and the steps
    pub needs: Amounts,
}

#[derive(Clone, Copy, Debug, PartialEq, Eq)]
pub struct Refused {
    pub refusal: Refusal,
    // from refusal 18 on the text is the name of the call that was being made
    pub report: Report,
}

impl Refused {
    // Refused at its entry: nothing was needed, and there is no text.
    pub(crate) fn at_entry(refusal: Refusal) -> Refused
        ensures { result ≡ record { refusal = refusal; report = record { text = 0; printed = 0; needs = nothing } } }
    {
        let report = Report {
            text: 0,
            printed: 0,
            needs: Amounts::default(),
        };
        Refused { refusal, report }
    }
}
