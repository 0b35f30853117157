// Retrieval.
ghost use Rattle.machine.specs.Texts.{Text};
ghost use Rattle.machine.specs.World.{calling};
ghost use Rattle.machine.specs.Libraries.{program_named, retrieve};
ghost use Rattle.scan.specs.Meeting.{Meets};
ghost use Rattle.world.specs.Standing.{world_in, Ready, SameMemory};

use crate::programs::fetch;
use code::Code;
use library::{Keeper, find_program};
use meter::Meter;
use refusal::Refusal;
use signs::Signs;
use world::World;

// For a called name that means nothing: the strings of the program of that name are defined, if there is one.
pub fn retrieve_named<C: Code, K: Keeper>(
    world: &mut World<'_, K>,
    signs: &Signs<C>,
    name: &[u8],
    meter: &mut Meter,
) -> Result<(), Refusal>
    requires ready { Ready K.Reader world.old meter.old.bounds }
    ensures meets { (n : Text) → Meets meter.old meter.new result (calling n (world_in K.Reader world.new)) (calling n (world_in K.Reader world.new)) (retrieve C.Code.meaning (program_named name.now (K.Reader.meaning world.old.library.now)) (calling n (world_in K.Reader world.old))) }
    ensures memory { SameMemory K.Reader world.old world.new }
{
    match find_program(&*world.library, name) {
        Some(program) => fetch(world, signs, program, meter),
        None => Ok(()),
    }
}
