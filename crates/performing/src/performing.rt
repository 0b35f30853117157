// Effects.
ghost use Rattle.std.specs.Prelude.{◌≡◌};
ghost use Rattle.plan.specs.Effects.{May, performed, asks_of};
ghost use Rattle.world.specs.Standing.{world_in, SameMemory, HasRoomFor};

use crate::classes::{define_class, define_class_of_others, erase_classes};
use crate::defining::{copy_built_in, copy_string, define_string};
use crate::erasing::erase_names;
use crate::keeping::{delete_program, store_program};
use crate::lines::print;
use crate::segmenting::segment;
use crate::strings::{append, mark_creation, move_pointer};
use code::Code;
use library::Keeper;
use plan::Effect;
use scan::Parameters;
use signs::Signs;
use world::World;

// An effect is had, for which there is room and which nothing refuses.
pub fn perform<C: Code, K: Keeper>(
    world: &mut World<'_, K>,
    signs: &Signs<C>,
    parameters: &Parameters<'_>,
    effect: Effect,
)
    requires may { May C.Code.meaning parameters.now world.old.dictionary.now world.old.store.now (K.Reader.meaning world.old.library.now) effect }
    requires room { HasRoomFor world.old (asks_of effect) (performed C.Code.meaning parameters.now world.old.store.now effect (world_in K.Reader world.old)) }
    ensures world { world_in K.Reader world.new ≡ performed C.Code.meaning parameters.now world.old.store.now effect (world_in K.Reader world.old) }
    ensures memory { SameMemory K.Reader world.old world.new }
{
    match effect {
        Effect::Nothing | Effect::Break => {}
        Effect::DefineString => define_string(world, signs, parameters),
        Effect::Append(string) => append(world, parameters, string),
        Effect::CopyString(string) => copy_string(world, signs, parameters, string),
        Effect::CopyBuiltIn(function) => copy_built_in(world, signs, parameters, function),
        Effect::EraseNames => erase_names(world, signs, parameters),
        Effect::MovePointer {
            name,
            string,
            pointer,
        } => move_pointer(world, parameters, name, string, pointer),
        Effect::Segment { string, .. } => segment(world, signs, parameters, string),
        Effect::MarkCreation(string) => mark_creation(world, signs, parameters, string),
        Effect::DefineClass => define_class(world, parameters),
        Effect::DefineClassOfOthers => define_class_of_others(world, signs, parameters),
        Effect::EraseClasses => erase_classes(world, parameters),
        Effect::Store => store_program(world, signs, parameters),
        Effect::Delete => delete_program(world, parameters),
        Effect::Print => print(world, signs, parameters),
    }
}
