// Classes of characters.
ghost use Rattle.std.specs.Prelude.{◌≡◌, ◌≤◌, length};
ghost use Rattle.machine.specs.Dictionary.{class_of, with_class, with_classes, bytes_in};
ghost use Rattle.machine.specs.Classes.{the_bytes, all_but, erase_classes};
ghost use Rattle.machine.specs.World.{with_dictionary, p1, p2};
ghost use Rattle.dictionary.specs.Meant.{classes_in, dictionary_in};
ghost use Rattle.dictionary.specs.Editing.{Kept};
ghost use Rattle.world.specs.Standing.{world_in, SameMemory};
ghost use Rattle.performing.specs.Rooms.{dictionary_of, with_members};

use code::Code;
use dictionary::Dictionary;
use library::Keeper;
use scan::Parameters;
use selection::{class_of_bytes, class_of_others};
use signs::Signs;
use world::World;

// Parameter 1 becomes the class of the bytes of 2.
pub(crate) fn define_class<K: Keeper>(world: &mut World<'_, K>, parameters: &Parameters<'_>)
    requires few { length (with_members world.old (p1 parameters.now) (the_bytes (p2 parameters.now))).classes ≤ 16 }
    requires room { bytes_in (with_members world.old (p1 parameters.now) (the_bytes (p2 parameters.now))) ≤ length world.old.store.now }
    ensures world { world_in K.Reader world.new ≡ with_dictionary (with_members world.old (p1 parameters.now) (the_bytes (p2 parameters.now))) (world_in K.Reader world.old) }
    ensures memory { SameMemory K.Reader world.old world.new }
{
    let members = class_of_bytes(parameters.get(1));
    world
        .dictionary
        .define_class(world.store, parameters.get(0), &members);
}

// Parameter 1 becomes the class of the characters and the end of line, but those of 2.
pub(crate) fn define_class_of_others<C: Code, K: Keeper>(
    world: &mut World<'_, K>,
    signs: &Signs<C>,
    parameters: &Parameters<'_>,
)
    requires few { length (with_members world.old (p1 parameters.now) (all_but C.Code.meaning (p2 parameters.now))).classes ≤ 16 }
    requires room { bytes_in (with_members world.old (p1 parameters.now) (all_but C.Code.meaning (p2 parameters.now))) ≤ length world.old.store.now }
    ensures world { world_in K.Reader world.new ≡ with_dictionary (with_members world.old (p1 parameters.now) (all_but C.Code.meaning (p2 parameters.now))) (world_in K.Reader world.old) }
    ensures memory { SameMemory K.Reader world.old world.new }
{
    let members = class_of_others(signs, parameters.get(1));
    world
        .dictionary
        .define_class(world.store, parameters.get(0), &members);
}

fn erase_all(dictionary: &mut Dictionary, store: &mut [u8], names: &Parameters<'_>)
    requires { dictionary.old.used ≤ length store.old }
    ensures meaning { dictionary_in dictionary.new store.new ≡ with_classes (erase_classes names.now (classes_in dictionary.old store.old)) (dictionary_in dictionary.old store.old) }
    ensures kept { Kept dictionary.old dictionary.new store.new }
{
    for n in 0..names.len() {
        dictionary.erase_class(store, names.get(n));
    }
}

// Each parameter is the name of a class that goes.
pub(crate) fn erase_classes<K: Keeper>(world: &mut World<'_, K>, parameters: &Parameters<'_>)
    ensures world { world_in K.Reader world.new ≡ with_dictionary (with_classes (erase_classes parameters.now (dictionary_of world.old).classes) (dictionary_of world.old)) (world_in K.Reader world.old) }
    ensures memory { SameMemory K.Reader world.old world.new }
{
    erase_all(world.dictionary, world.store, parameters);
}
