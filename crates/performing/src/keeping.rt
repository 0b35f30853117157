// Programs that are stored and go.
ghost use Rattle.std.specs.Prelude.{◌≡◌, ◌≤◌, true, None, length};
ghost use Rattle.library.specs.Keeping.{with_program, without_program, delete_refusal};
ghost use Rattle.library.specs.Name.{fits_name};
ghost use Rattle.machine.specs.Libraries.{program_to_store};
ghost use Rattle.machine.specs.World.{with_library, p1};
ghost use Rattle.dictionary.specs.Meant.{dictionary_in};
ghost use Rattle.plan.specs.Effects.{MayStore};
ghost use Rattle.world.specs.Standing.{world_in, SameMemory};
ghost use Rattle.performing.specs.Rooms.{dictionary_of};

use crate::strings_to_store::StringsToStore;
use code::Code;
use dictionary::Dictionary;
use library::{Keeper, ProgramName};
use scan::Parameters;
use signs::Signs;
use world::World;

fn store_strings<'s, C: Code, K: Keeper>(
    library: &mut K,
    dictionary: &'s Dictionary,
    store: &'s [u8],
    signs: &'s Signs<C>,
    parameters: &'s Parameters<'s>,
)
    requires whole { dictionary.now.used ≤ length store.now }
    requires may { MayStore C.Code.meaning parameters.now dictionary.now store.now (K.Reader.meaning library.old) }
    ensures { K.Reader.meaning library.new ≡ with_program (K.Reader.meaning library.old) (program_to_store C.Code.meaning parameters.now (dictionary_in dictionary.now store.now)) }
{
    let name = ProgramName::new(parameters.get(0)).unwrap();
    let strings = StringsToStore {
        signs,
        dictionary,
        store,
        parameters,
    };
    library.store(&name, &strings).unwrap();
}

// The strings behind parameter 1 are stored as a program of that name.
pub(crate) fn store_program<C: Code, K: Keeper>(
    world: &mut World<'_, K>,
    signs: &Signs<C>,
    parameters: &Parameters<'_>,
)
    requires may { MayStore C.Code.meaning parameters.now world.old.dictionary.now world.old.store.now (K.Reader.meaning world.old.library.now) }
    ensures world { world_in K.Reader world.new ≡ with_library (with_program (K.Reader.meaning world.old.library.now) (program_to_store C.Code.meaning parameters.now (dictionary_of world.old))) (world_in K.Reader world.old) }
    ensures memory { SameMemory K.Reader world.old world.new }
{
    let store = &mut *world.store;
    store_strings(
        world.library,
        world.dictionary,
        store,
        &*signs,
        &*parameters,
    );
}

// The program 1 goes.
pub(crate) fn delete_program<K: Keeper>(world: &mut World<'_, K>, parameters: &Parameters<'_>)
    requires named { fits_name (p1 parameters.now) ≡ true }
    requires granted { delete_refusal (K.Reader.meaning world.old.library.now) (p1 parameters.now) ≡ None }
    ensures world { world_in K.Reader world.new ≡ with_library (without_program (K.Reader.meaning world.old.library.now) (p1 parameters.now)) (world_in K.Reader world.old) }
    ensures memory { SameMemory K.Reader world.old world.new }
{
    let name = ProgramName::new(parameters.get(0)).unwrap();
    world.library.delete(&name).unwrap();
}
