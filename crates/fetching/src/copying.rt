// COPY.
ghost use Rattle.machine.specs.Texts.{Text};
ghost use Rattle.machine.specs.World.{calling};
ghost use Rattle.machine.specs.Libraries.{fetched, copy_program as copying};
ghost use Rattle.scan.specs.Meeting.{Meets};
ghost use Rattle.world.specs.Standing.{world_in, Ready, SameMemory};

use crate::programs::fetch;
use code::Code;
use library::{Keeper, ProgramName, find_program};
use meter::Meter;
use refusal::Refusal;
use scan::Parameters;
use signs::Signs;
use world::World;

// The strings of the program that parameter 1 names are defined.
pub fn copy_program<C: Code, K: Keeper>(
    world: &mut World<'_, K>,
    signs: &Signs<C>,
    parameters: &Parameters<'_>,
    meter: &mut Meter,
) -> Result<(), Refusal>
    requires ready { Ready K.Reader world.old meter.old.bounds }
    ensures meets { (n : Text) → Meets meter.old meter.new result (fetched (calling n (world_in K.Reader world.new))) (calling n (world_in K.Reader world.new)) (copying C.Code.meaning parameters.now (calling n (world_in K.Reader world.old))) }
    ensures memory { SameMemory K.Reader world.old world.new }
{
    let name = parameters.get(0);
    if ProgramName::new(name).is_none() {
        return Err(Refusal::ProgramNameLength);
    }
    match find_program(&*world.library, name) {
        Some(program) => fetch(world, signs, program, meter),
        None => Err(Refusal::ProgramAbsent),
    }
}
