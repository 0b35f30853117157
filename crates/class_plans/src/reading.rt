// The class 1 and the string 2, asked for in this order.
ghost use Rattle.std.specs.Prelude.{IfOk};
ghost use Rattle.machine.specs.World.{p2};
ghost use Rattle.dictionary.specs.Finding.{Standing};
ghost use Rattle.dictionary.specs.Strings.{place_of};
ghost use Rattle.plan.specs.Plans.{ComesTo};
ghost use Rattle.class_plans.specs.Reading.{HasNoMarks, beginning_read, run_in, run_read};

use crate::run::Run;
use code::Code;
use library::Reader;
use plan::{find_class, find_string};
use refusal::Refusal;
use selection::{begins_with_member, class_run};
use value::Sources;

// The members that the string begins with.
pub(crate) fn find_run<C: Code, R: Reader>(sources: &Sources<'_, C, R>) -> Result<Run, Refusal>
    ensures run { ComesTo sources.now (run_read C.Code.meaning sources.now.parameters.now) (run_in sources.now.store.now) result }
    ensures place { IfOk result (λ r. Standing sources.now.dictionary.now sources.now.store.now (p2 sources.now.parameters.now) (place_of r.string)) }
    ensures unmarked { IfOk result (λ r. HasNoMarks C.Code.meaning (run_in sources.now.store.now r)) }
{
    let members = find_class(sources, 0)?;
    let string = find_string(sources, 1)?;
    let rest = sources.dictionary.rest(sources.store, string);
    let len = class_run(sources.signs, members, rest);
    Ok(Run { string, len })
}

// Does the string begin with a member?
pub(crate) fn begins_with_class<C: Code, R: Reader>(
    sources: &Sources<'_, C, R>,
) -> Result<bool, Refusal>
    ensures { ComesTo sources.now (beginning_read C.Code.meaning sources.now.parameters.now) (λ begins. begins) result }
{
    let class = find_class(sources, 0)?;
    let string = find_string(sources, 1)?;
    let rest = sources.dictionary.rest(sources.store, string);
    Ok(begins_with_member(sources.signs, class, rest))
}
