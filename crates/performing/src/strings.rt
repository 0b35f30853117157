// A string that changes.
ghost use Rattle.std.specs.Prelude.{◌≡◌, ◌≤◌};
ghost use Rattle.machine.specs.Dictionary.{change, rest_of};
ghost use Rattle.machine.specs.Strings.{appended, with_mark, with_rest};
ghost use Rattle.machine.specs.World.{with_string, parameter, p1, p2};
ghost use Rattle.dictionary.specs.Finding.{Standing};
ghost use Rattle.dictionary.specs.Strings.{place_of, string_in};
ghost use Rattle.world.specs.Standing.{world_in, SameMemory};
ghost use Rattle.performing.specs.Rooms.{dictionary_of, RoomFor};

use code::Code;
use dictionary::StringPlace;
use library::Keeper;
use scan::Parameters;
use signs::Signs;
use world::World;

// Parameter 2 goes behind the string 1.
pub(crate) fn append<K: Keeper>(
    world: &mut World<'_, K>,
    parameters: &Parameters<'_>,
    string: StringPlace,
)
    requires place { Standing world.old.dictionary.now world.old.store.now (p1 parameters.now) (place_of string) }
    requires room { RoomFor world.old (change (p1 parameters.now) (appended (p2 parameters.now) (string_in string world.old.store.now)) (dictionary_of world.old)) }
    ensures world { world_in K.Reader world.new ≡ with_string (p1 parameters.now) (appended (p2 parameters.now) (string_in string world.old.store.now)) (world_in K.Reader world.old) }
    ensures memory { SameMemory K.Reader world.old world.new }
{
    world
        .dictionary
        .append(world.store, string, parameters.get(1));
}

// The pointer of the string that a parameter names moves.
pub(crate) fn move_pointer<K: Keeper>(
    world: &mut World<'_, K>,
    parameters: &Parameters<'_>,
    name: usize,
    string: StringPlace,
    pointer: usize,
)
    requires place { Standing world.old.dictionary.now world.old.store.now (parameter name parameters.now) (place_of string) }
    requires within { pointer ≤ string.extent.length }
    ensures world { world_in K.Reader world.new ≡ with_string (parameter name parameters.now) (record { body = (string_in string world.old.store.now).body; pointer = pointer }) (world_in K.Reader world.old) }
    ensures memory { SameMemory K.Reader world.old world.new }
{
    world.dictionary.set_pointer(string, pointer);
}

// Each match of parameter 2 in the string 1 becomes the creation mark.
pub(crate) fn mark_creation<C: Code, K: Keeper>(
    world: &mut World<'_, K>,
    signs: &Signs<C>,
    parameters: &Parameters<'_>,
    string: StringPlace,
)
    requires place { Standing world.old.dictionary.now world.old.store.now (p1 parameters.now) (place_of string) }
    ensures world { world_in K.Reader world.new ≡ with_string (p1 parameters.now) (with_rest (with_mark (p2 parameters.now) C.Code.meaning.creation_mark (rest_of (string_in string world.old.store.now))) (string_in string world.old.store.now)) (world_in K.Reader world.old) }
    ensures memory { SameMemory K.Reader world.old world.new }
{
    let mut place = string;
    world.dictionary.mark(
        world.store,
        &mut place,
        parameters.get(1),
        signs.creation_mark,
    );
}
