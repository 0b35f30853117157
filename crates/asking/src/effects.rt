// Is there room for what an effect of some kind is to leave?
ghost use Rattle.std.specs.Prelude.{◌≡◌, ◌++◌, List, Bool, length, take};
ghost use Rattle.machine.specs.Texts.{Code as AnyCode};
ghost use Rattle.machine.specs.Dictionary.{Meaning, body_of, define, change, with_class, with_classes};
ghost use Rattle.machine.specs.Strings.{appended};
ghost use Rattle.machine.specs.Functions.{lines};
ghost use Rattle.machine.specs.World.{World as AnyWorld, names_and_store, store_only, print_only, p1, p2};
ghost use Rattle.dictionary.specs.Meant.{classes_in, dictionary_in};
ghost use Rattle.dictionary.specs.Finding.{Standing};
ghost use Rattle.dictionary.specs.Strings.{place_of, string_in};
ghost use Rattle.world.specs.Standing.{Ready};
ghost use Rattle.asking.specs.Answers.{Answers};

use crate::questions::{ask_names_and_store, ask_print, ask_store};
use code::Code;
use dictionary::StringPlace;
use library::Keeper;
use meter::Meter;
use printing::lines_length;
use refusal::Refusal;
use scan::Parameters;
use signs::Signs;
use world::World;

// Parameter 1 is to mean something with a body of so many bytes.
pub(crate) fn ask_definition<K: Keeper>(
    world: &World<'_, K>,
    parameters: &Parameters<'_>,
    body: usize,
    meter: &mut Meter,
) -> Result<(), Refusal>
    requires ready { Ready K.Reader world.now meter.old.bounds }
    ensures { (code : AnyCode) (m : Meaning) (v : AnyWorld) → length (body_of m) ≡ body → v.dictionary ≡ define code (p1 parameters.now) m (dictionary_in world.now.dictionary.now world.now.store.now) → Answers meter.old meter.new result names_and_store v }
{
    let needs = world
        .dictionary
        .after_define(world.store, parameters.get(0), body);
    ask_names_and_store(needs, meter)
}

// Parameter 2 is to go behind the string 1.
pub(crate) fn ask_append<K: Keeper>(
    world: &World<'_, K>,
    parameters: &Parameters<'_>,
    string: StringPlace,
    meter: &mut Meter,
) -> Result<(), Refusal>
    requires place { Standing world.now.dictionary.now world.now.store.now (p1 parameters.now) (place_of string) }
    requires ready { Ready K.Reader world.now meter.old.bounds }
    ensures { (v : AnyWorld) → v.dictionary ≡ change (p1 parameters.now) (appended (p2 parameters.now) (string_in string world.now.store.now)) (dictionary_in world.now.dictionary.now world.now.store.now) → Answers meter.old meter.new result names_and_store v }
{
    let more = parameters.get(1);
    let needs = world.dictionary.after_append(string, more.len());
    ask_names_and_store(needs, meter)
}

// Parameter 1 is to be a class.
pub(crate) fn ask_class<K: Keeper>(
    world: &World<'_, K>,
    parameters: &Parameters<'_>,
    meter: &mut Meter,
) -> Result<(), Refusal>
    requires ready { Ready K.Reader world.now meter.old.bounds }
    ensures { (members : List Bool) (v : AnyWorld) → v.dictionary ≡ with_classes (with_class (p1 parameters.now) members (classes_in world.now.dictionary.now world.now.store.now)) (dictionary_in world.now.dictionary.now world.now.store.now) → Answers meter.old meter.new result store_only v }
{
    let needs = world
        .dictionary
        .after_define_class(world.store, parameters.get(0));
    ask_store(needs.bytes, meter)
}

// Parameter 1 is to be printed.
pub(crate) fn ask_lines<C: Code, K: Keeper>(
    world: &World<'_, K>,
    signs: &Signs<C>,
    parameters: &Parameters<'_>,
    meter: &mut Meter,
) -> Result<(), Refusal>
    requires ready { Ready K.Reader world.now meter.old.bounds }
    ensures { (v : AnyWorld) → v.printed ≡ take world.now.printed world.now.print.now ++ lines C.Code.meaning.end_of_line 132 (p1 parameters.now) → Answers meter.old meter.new result print_only v }
{
    let more = lines_length(signs.end_of_line, parameters.get(0));
    ask_print(world.printed.saturating_add(more), meter)
}
