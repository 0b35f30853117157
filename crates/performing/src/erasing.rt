// Names that go.
ghost use Rattle.std.specs.Prelude.{◌≡◌, ◌≤◌, length};
ghost use Rattle.machine.specs.Strings.{erase_all};
ghost use Rattle.machine.specs.World.{with_dictionary};
ghost use Rattle.dictionary.specs.Meant.{dictionary_in};
ghost use Rattle.dictionary.specs.Editing.{Kept};
ghost use Rattle.world.specs.Standing.{world_in, SameMemory};
ghost use Rattle.performing.specs.Rooms.{dictionary_of};

use code::Code;
use dictionary::Dictionary;
use library::Keeper;
use scan::Parameters;
use signs::Signs;
use world::World;

fn erase_all<C: Code>(
    dictionary: &mut Dictionary,
    store: &mut [u8],
    signs: &Signs<C>,
    names: &Parameters<'_>,
)
    requires { dictionary.old.used ≤ length store.old }
    ensures meaning { dictionary_in dictionary.new store.new ≡ erase_all C.Code.meaning names.now (dictionary_in dictionary.old store.old) }
    ensures kept { Kept dictionary.old dictionary.new store.new }
{
    for n in 0..names.len() {
        dictionary.erase(signs, store, names.get(n));
    }
}

// Each parameter is a name that goes.
pub(crate) fn erase_names<C: Code, K: Keeper>(
    world: &mut World<'_, K>,
    signs: &Signs<C>,
    parameters: &Parameters<'_>,
)
    ensures world { world_in K.Reader world.new ≡ with_dictionary (erase_all C.Code.meaning parameters.now (dictionary_of world.old)) (world_in K.Reader world.old) }
    ensures memory { SameMemory K.Reader world.old world.new }
{
    erase_all(world.dictionary, world.store, signs, parameters);
}
