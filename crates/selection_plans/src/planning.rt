// Which function is called.
ghost use Rattle.machine.specs.Selection.{on_selection};
ghost use Rattle.plan.specs.Plans.{Plans};

use crate::characters::{call_characters, count, skip_characters};
use crate::ends::{end_of_string, reset_pointer};
use crate::parts::{call_parameter, call_segment};
use crate::searching::{character_scan, initial_scan};
use code::Code;
use library::Reader;
use machine::SelectionFunction;
use plan::Plan;
use refusal::Refusal;
use value::Sources;

// What a call of such a function comes to.
pub fn plan_selection<C: Code, R: Reader>(
    sources: &Sources<'_, C, R>,
    function: SelectionFunction,
) -> Result<Plan, Refusal>
    ensures { Plans sources.now (on_selection C.Code.meaning function sources.now.parameters.now) result }
{
    match function {
        SelectionFunction::Cc => call_characters(sources, 1, 0),
        SelectionFunction::Cn => call_characters(sources, count(sources)?, 1),
        SelectionFunction::Sn => skip_characters(sources, count(sources)?, 1),
        SelectionFunction::Isc => initial_scan(sources),
        SelectionFunction::Scn => character_scan(sources),
        SelectionFunction::Cp => call_parameter(sources),
        SelectionFunction::Cs => call_segment(sources),
        SelectionFunction::Rrp => reset_pointer(sources),
        SelectionFunction::Eos => end_of_string(sources),
    }
}
