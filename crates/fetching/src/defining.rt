// Strings of a library that become strings of the dictionary.
ghost use Rattle.std.specs.Prelude.{◌≡◌, ◌&&◌, [], ◌∷◌};
ghost use Rattle.library.specs.Views.{string_viewed};
ghost use Rattle.machine.specs.Texts.{proper_name, proper_body};
ghost use Rattle.machine.specs.World.{World, with_dictionary};
ghost use Rattle.machine.specs.Libraries.{fetching};
ghost use Rattle.dictionary.specs.Meant.{dictionary_in};
ghost use Rattle.dictionary.specs.Editing.{Kept};
ghost use Rattle.scan.specs.Meeting.{Meets};
ghost use Rattle.fetching.specs.Sufficing.{Suffices};

use code::Code;
use dictionary::Dictionary;
use library::{Source, StringView, each_string};
use meter::{Meter, Question};
use proper_texts::{is_proper_body, is_proper_name};
use refusal::Refusal;
use signs::Signs;

// May its name and its body stand in the dictionary?
fn is_proper<C: Code>(signs: &Signs<C>, string: StringView<'_>) -> bool
    ensures { result ≡ (proper_name C.Code.meaning string.entry.name.now && proper_body C.Code.meaning string.entry.body.now) }
{
    is_proper_name(signs, string.name) && is_proper_body(signs, string.body)
}

// One string: its texts are asked, then the room for it.
fn define_string<C: Code>(
    dictionary: &mut Dictionary,
    store: &mut [u8],
    signs: &Signs<C>,
    string: StringView<'_>,
    meter: &mut Meter,
) -> Result<(), Refusal>
    requires { Suffices dictionary.old store.old meter.old.bounds }
    ensures meets { (w : World) → Meets meter.old meter.new result (with_dictionary (dictionary_in dictionary.new store.new) w) (with_dictionary (dictionary_in dictionary.new store.new) w) (fetching C.Code.meaning (string_viewed string.entry ∷ []) (with_dictionary (dictionary_in dictionary.old store.old) w)) }
    ensures kept { Kept dictionary.old dictionary.new store.new }
{
    if !is_proper(signs, string) {
        return Err(Refusal::ForeignText);
    }
    let needs = dictionary.after_define(store, string.name, string.body.len());
    meter.put(Question::Names, needs.names)?;
    meter.put(Question::Store, needs.bytes)?;
    dictionary.define_string(signs, store, string.name, string.body);
    Ok(())
}

// The strings in their order. A refused one leaves those before it.
pub(crate) fn define_strings<C: Code, S: Source>(
    dictionary: &mut Dictionary,
    store: &mut [u8],
    signs: &Signs<C>,
    strings: &S,
    meter: &mut Meter,
) -> Result<(), Refusal>
    requires { Suffices dictionary.old store.old meter.old.bounds }
    ensures meets { (w : World) → Meets meter.old meter.new result (with_dictionary (dictionary_in dictionary.new store.new) w) (with_dictionary (dictionary_in dictionary.new store.new) w) (fetching C.Code.meaning (S.Source.strings strings.now) (with_dictionary (dictionary_in dictionary.old store.old) w)) }
    ensures kept { Kept dictionary.old dictionary.new store.new }
{
    for string in each_string(strings) {
        define_string(dictionary, store, signs, string, meter)?;
    }
    Ok(())
}
