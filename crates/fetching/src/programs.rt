// The strings of a program.
ghost use Rattle.machine.specs.Texts.{Text};
ghost use Rattle.machine.specs.World.{calling};
ghost use Rattle.machine.specs.Libraries.{fetching};
ghost use Rattle.library.specs.Meaning.{strings_of, program_at};
ghost use Rattle.scan.specs.Meeting.{Meets};
ghost use Rattle.world.specs.Standing.{world_in, Ready, SameMemory};

use crate::defining::define_strings;
use code::Code;
use library::{Keeper, view_program};
use meter::Meter;
use refusal::Refusal;
use signs::Signs;
use world::World;

// The strings of the program at that place are defined, each after its questions; past the last program there are none.
pub fn fetch<C: Code, K: Keeper>(
    world: &mut World<'_, K>,
    signs: &Signs<C>,
    program: usize,
    meter: &mut Meter,
) -> Result<(), Refusal>
    requires ready { Ready K.Reader world.old meter.old.bounds }
    ensures meets { (n : Text) → Meets meter.old meter.new result (calling n (world_in K.Reader world.new)) (calling n (world_in K.Reader world.new)) (fetching C.Code.meaning (strings_of (program_at (K.Reader.meaning world.old.library.now).programs program)) (calling n (world_in K.Reader world.old))) }
    ensures memory { SameMemory K.Reader world.old world.new }
{
    match view_program(&*world.library, program) {
        Some(view) => define_strings(world.dictionary, world.store, signs, &view, meter),
        None => Ok(()),
    }
}
