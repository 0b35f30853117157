// The answer of an expansion, from what its scan came to.
ghost use Rattle.std.specs.Prelude.{◌≡◌, ◌≤◌, length, take};
ghost use Rattle.machine.specs.Calls.{shown_name};
ghost use Rattle.ttm.specs.Answers.{Concluded};

use crate::report::{Refused, Report};
use machine::Amounts;
use refusal::Refusal;

// The first refusal that shows the name of the call.
const FIRST_NAMED: u8 = 18;

// The name of the call that was being made is shown from a refusal on; before that no text is.
fn show_name(refusal: Refusal, called: &[u8], scan: &mut [u8]) -> usize
    requires { length called.now ≤ length scan.old }
    ensures len { result ≡ length (shown_name refusal called.now) }
    ensures shown { take result scan.new ≡ shown_name refusal called.now }
    ensures area { length scan.new ≡ length scan.old }
{
    if refusal.number() < FIRST_NAMED {
        return 0;
    }
    scan[..called.len()].copy_from_slice(called);
    called.len()
}

// The text of a scan that came to its end begins the area already.
pub(crate) fn conclude(
    outcome: Result<usize, Refusal>,
    called: &[u8],
    scan: &mut [u8],
    printed: usize,
    needs: Amounts,
) -> Result<Report, Refused>
    requires { length called.now ≤ length scan.old }
    ensures answer { Concluded outcome called.now scan.old scan.new printed needs result }
    ensures area { length scan.new ≡ length scan.old }
{
    match outcome {
        Ok(text) => Ok(Report {
            text,
            printed,
            needs,
        }),
        Err(refusal) => {
            let text = show_name(refusal, called, scan);
            let report = Report {
                text,
                printed,
                needs,
            };
            Err(Refused { refusal, report })
        }
    }
}
