// A string that is segmented.
ghost use Rattle.std.specs.Prelude.{◌≡◌, ◌≤◌, suc, length};
ghost use Rattle.machine.specs.Texts.{Text, highest_mark};
ghost use Rattle.machine.specs.Dictionary.{change};
ghost use Rattle.machine.specs.Strings.{segmented, with_rest};
ghost use Rattle.machine.specs.World.{with_string, p1};
ghost use Rattle.dictionary.specs.Meant.{dictionary_in};
ghost use Rattle.dictionary.specs.Finding.{FirstNamed, RowAt, Standing};
ghost use Rattle.dictionary.specs.Editing.{Kept};
ghost use Rattle.dictionary.specs.Strings.{place_of, string_in};
ghost use Rattle.world.specs.Standing.{world_in, SameMemory};

use code::Code;
use dictionary::{Dictionary, StringPlace};
use library::Keeper;
use scan::Parameters;
use selection::highest_mark;
use signs::Signs;
use world::World;

// The number of the next mark in a body.
fn next_number<C: Code>(signs: &Signs<C>, body: &[u8]) -> u8
    ensures number { result ≡ suc (highest_mark C.Code.meaning body.now) }
    ensures most { result ≤ 63 }
{
    highest_mark(signs, body) + 1
}

// The parameters behind the first are marked one after the other, as far as there are numbers.
fn segment_by_all<C: Code>(
    dictionary: &mut Dictionary,
    store: &mut [u8],
    signs: &Signs<C>,
    parameters: &Parameters<'_>,
    string: StringPlace,
)
    requires whole { dictionary.old.used ≤ length store.old }
    requires place { RowAt dictionary.old (place_of string) }
    ensures meaning { (name : Text) → FirstNamed dictionary.old store.old name string.index → dictionary_in dictionary.new store.new ≡ change name (with_rest (segmented C.Code.meaning parameters.now (string_in string store.old)).marked_text (string_in string store.old)) (dictionary_in dictionary.old store.old) }
    ensures kept { Kept dictionary.old dictionary.new store.new }
{
    let mut place = string;
    let mut number = next_number(signs, dictionary.body(store, string));
    for n in 1..parameters.len().min(63) {
        let Some(mark) = signs.code.segment_mark(number) else {
            return;
        };
        dictionary.mark(store, &mut place, parameters.get(n), mark);
        number += 1;
    }
}

// The parameters behind the first are marked in the string 1.
pub(crate) fn segment<C: Code, K: Keeper>(
    world: &mut World<'_, K>,
    signs: &Signs<C>,
    parameters: &Parameters<'_>,
    string: StringPlace,
)
    requires place { Standing world.old.dictionary.now world.old.store.now (p1 parameters.now) (place_of string) }
    ensures world { world_in K.Reader world.new ≡ with_string (p1 parameters.now) (with_rest (segmented C.Code.meaning parameters.now (string_in string world.old.store.now)).marked_text (string_in string world.old.store.now)) (world_in K.Reader world.old) }
    ensures memory { SameMemory K.Reader world.old world.new }
{
    segment_by_all(world.dictionary, world.store, signs, parameters, string);
}
