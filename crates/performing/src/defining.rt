// A name that becomes a string or a built-in.
ghost use Rattle.std.specs.Prelude.{◌≡◌};
ghost use Rattle.machine.specs.Dictionary.{define, string, built_in, new_string, rest_of};
ghost use Rattle.machine.specs.World.{with_dictionary, p1, p2};
ghost use Rattle.dictionary.specs.Finding.{RowAt};
ghost use Rattle.dictionary.specs.Strings.{place_of, string_in};
ghost use Rattle.world.specs.Standing.{world_in, SameMemory};
ghost use Rattle.performing.specs.Rooms.{dictionary_of, RoomFor};

use code::Code;
use dictionary::StringPlace;
use library::Keeper;
use machine::BuiltIn;
use scan::Parameters;
use signs::Signs;
use world::World;

// Parameter 1 becomes the string 2.
pub(crate) fn define_string<C: Code, K: Keeper>(
    world: &mut World<'_, K>,
    signs: &Signs<C>,
    parameters: &Parameters<'_>,
)
    requires room { RoomFor world.old (define C.Code.meaning (p1 parameters.now) (string (new_string (p2 parameters.now))) (dictionary_of world.old)) }
    ensures world { world_in K.Reader world.new ≡ with_dictionary (define C.Code.meaning (p1 parameters.now) (string (new_string (p2 parameters.now))) (dictionary_of world.old)) (world_in K.Reader world.old) }
    ensures memory { SameMemory K.Reader world.old world.new }
{
    world
        .dictionary
        .define_string(signs, world.store, parameters.get(0), parameters.get(1));
}

// Parameter 1 becomes what is left of a string.
pub(crate) fn copy_string<C: Code, K: Keeper>(
    world: &mut World<'_, K>,
    signs: &Signs<C>,
    parameters: &Parameters<'_>,
    source: StringPlace,
)
    requires place { RowAt world.old.dictionary.now (place_of source) }
    requires room { RoomFor world.old (define C.Code.meaning (p1 parameters.now) (string (new_string (rest_of (string_in source world.old.store.now)))) (dictionary_of world.old)) }
    ensures world { world_in K.Reader world.new ≡ with_dictionary (define C.Code.meaning (p1 parameters.now) (string (new_string (rest_of (string_in source world.old.store.now)))) (dictionary_of world.old)) (world_in K.Reader world.old) }
    ensures memory { SameMemory K.Reader world.old world.new }
{
    world
        .dictionary
        .define_copy(signs, world.store, parameters.get(0), source);
}

// Parameter 1 becomes a built-in.
pub(crate) fn copy_built_in<C: Code, K: Keeper>(
    world: &mut World<'_, K>,
    signs: &Signs<C>,
    parameters: &Parameters<'_>,
    function: BuiltIn,
)
    requires room { RoomFor world.old (define C.Code.meaning (p1 parameters.now) (built_in function) (dictionary_of world.old)) }
    ensures world { world_in K.Reader world.new ≡ with_dictionary (define C.Code.meaning (p1 parameters.now) (built_in function) (dictionary_of world.old)) (world_in K.Reader world.old) }
    ensures memory { SameMemory K.Reader world.old world.new }
{
    world
        .dictionary
        .define_built_in(signs, world.store, parameters.get(0), function);
}
