// The call of a built-in.
ghost use Rattle.std.specs.Prelude.{◌≢◌, ◌≤◌, length};
ghost use Rattle.calls.specs.Ends.{MayCall};
ghost use Rattle.calls.specs.Outcomes.{outcome_for};
ghost use Rattle.calls.specs.ReadyCalls.{Readies};
ghost use Rattle.machine.specs.Dictionary.{built_in};
ghost use Rattle.machine.specs.World.{running};
ghost use Rattle.machine.specs.Functions.{apply as apply_of, perform as perform_of};
ghost use Rattle.world.specs.Standing.{SameMemory};

use crate::planning::plan_from;
use crate::ready_call::ReadyCall;
use asking::ask;
use built_ins::least_parameters;
use code::Code;
use fetching::copy_program;
use library::Keeper;
use machine::{BuiltIn, LibraryFunction};
use meter::Meter;
use performing::perform;
use plan::Plan;
use refusal::Refusal;
use scan::Parameters;
use signs::Signs;
use value::Value;
use world::World;

// A built-in, other than COPY, is planned, and what it needs is asked.
fn ready_planned<C: Code, K: Keeper>(
    world: &mut World<'_, K>,
    signs: &Signs<C>,
    parameters: &Parameters<'_>,
    function: BuiltIn,
    meter: &mut Meter,
) -> Result<ReadyCall, Refusal>
    requires plannable { function ≢ BuiltIn.Library LibraryFunction.Copy }
    requires ready { MayCall K.Reader world.old meter.old.bounds }
    ensures readies { Readies K.Reader C.Code.meaning parameters.now (λ w. running w (outcome_for C.Code.meaning function parameters.now w)) world.old world.new meter.old meter.new result }
    ensures memory { SameMemory K.Reader world.old world.new }
{
    let dictionary = &*world.dictionary;
    // a slice in a field is lent by `&mut`, or its bytes are not known afterwards
    let store = &mut *world.store;
    let library = &*world.library;
    let plan = plan_from(
        signs,
        &*parameters,
        dictionary,
        store,
        library,
        world.scratch,
        function,
    )?;
    if !plan.effect.is_numbered() {
        perform(world, signs, parameters, plan.effect);
        return Err(Refusal::NoMarkNumber);
    }
    ask(world, signs, parameters, plan.effect, meter)?;
    Ok(ReadyCall {
        plan,
        numbered: false,
    })
}

// COPY has its questions between its definitions, so that nothing is left to be done.
fn ready_copied<C: Code, K: Keeper>(
    world: &mut World<'_, K>,
    signs: &Signs<C>,
    parameters: &Parameters<'_>,
    meter: &mut Meter,
) -> Result<ReadyCall, Refusal>
    requires ready { MayCall K.Reader world.old meter.old.bounds }
    ensures readies { Readies K.Reader C.Code.meaning parameters.now (apply_of C.Code.meaning (BuiltIn.Library LibraryFunction.Copy) parameters.now) world.old world.new meter.old meter.new result }
    ensures memory { SameMemory K.Reader world.old world.new }
{
    copy_program(world, signs, parameters, meter)?;
    Ok(ReadyCall {
        plan: Plan::of_value(Value::Nothing),
        numbered: false,
    })
}

// A built-in that has parameters enough.
fn apply<C: Code, K: Keeper>(
    world: &mut World<'_, K>,
    signs: &Signs<C>,
    parameters: &Parameters<'_>,
    function: BuiltIn,
    meter: &mut Meter,
) -> Result<ReadyCall, Refusal>
    requires ready { MayCall K.Reader world.old meter.old.bounds }
    ensures readies { Readies K.Reader C.Code.meaning parameters.now (apply_of C.Code.meaning function parameters.now) world.old world.new meter.old meter.new result }
    ensures memory { SameMemory K.Reader world.old world.new }
{
    match function {
        BuiltIn::Library(LibraryFunction::Copy) => { ready_copied(world, signs, parameters, meter) }
        planned => ready_planned(world, signs, parameters, planned, meter),
    }
}

// A built-in, which may have too few parameters.
pub(crate) fn ready_built_in<C: Code, K: Keeper>(
    world: &mut World<'_, K>,
    signs: &Signs<C>,
    parameters: &Parameters<'_>,
    function: BuiltIn,
    meter: &mut Meter,
) -> Result<ReadyCall, Refusal>
    requires ready { MayCall K.Reader world.old meter.old.bounds }
    ensures readies { Readies K.Reader C.Code.meaning parameters.now (perform_of C.Code.meaning (Some (built_in function)) parameters.now) world.old world.new meter.old meter.new result }
    ensures memory { SameMemory K.Reader world.old world.new }
{
    if parameters.len() < least_parameters(function) {
        return Err(Refusal::TooFewParameters);
    }
    apply(world, signs, parameters, function, meter)
}
