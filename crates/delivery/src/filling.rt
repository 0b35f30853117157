// How long a value is, and how it goes into its place.
ghost use Rattle.std.specs.Prelude.{◌≡◌, ◌≤◌, length};
ghost use Rattle.machine.specs.World.{World};
ghost use Rattle.scan.specs.Texts.{left_of, SameArea, HasRoom};
ghost use Rattle.scan.specs.Standing.{state_in};
ghost use Rattle.value.specs.Texts.{value_text, capped};
ghost use Rattle.delivery.specs.Deliveries.{StandsIn, parameters_in, text_in, value_in, delivery_of, Written};

use crate::delivery::{Delivery, Placement};
use crate::environment::Environment;
use code::Code;
use dictionary::Dictionary;
use library::Reader;
use scan::{Roll, ScanTexts};
use signs::Signs;
use value::{Sources, Value};

// A value is written, where the parameters of the call stand in that left text.
fn write_from<C: Code, R: Reader>(
    signs: &Signs<C>,
    roll: &Roll,
    dictionary: &Dictionary,
    store: &[u8],
    library: &R,
    value: Value,
    left: &[u8],
    part: &mut [u8],
)
    requires whole { dictionary.now.used ≤ length store.now }
    requires stands { StandsIn dictionary.now value }
    requires fits { length part.old ≡ length (value_text C.Code.meaning (parameters_in roll.now.entries.items left.now) store.now (R.Reader.meaning library.now) value) }
    ensures { part.new ≡ value_text C.Code.meaning (parameters_in roll.now.entries.items left.now) store.now (R.Reader.meaning library.now) value }
{
    let parameters = roll.parameters_in(left);
    let sources = Sources {
        signs,
        parameters: &parameters,
        dictionary,
        store,
        library,
    };
    value.write(&sources, part);
}

impl<'a, R: Reader> Environment<'a, R> {
    // How long a value of the innermost call is, or the largest usize where it is longer than that.
    pub(crate) fn value_length<C: Code>(
        &self,
        signs: &Signs<C>,
        value: Value,
        texts: &ScanTexts<'_>,
        roll: &Roll,
    ) -> usize
        requires { StandsIn self.now.dictionary.now value }
        ensures { result ≡ capped (length (text_in C.Code.meaning self.now value roll.now.entries.items (left_of texts.now))) }
    {
        let parameters = roll.parameters(texts);
        let sources = Sources {
            signs,
            parameters: &parameters,
            dictionary: self.dictionary,
            store: self.store,
            library: self.library,
        };
        value.len(&sources)
    }
}

impl Delivery {
    // A value of n bytes is written into its place.
    pub(crate) fn write_in_place<C: Code, R: Reader>(
        self,
        signs: &Signs<C>,
        environment: &Environment<'_, R>,
        value: Value,
        n: usize,
        texts: &mut ScanTexts<'_>,
        roll: &Roll,
    )
        requires stands { StandsIn environment.now.dictionary.now value }
        requires room { HasRoom n texts.old }
        requires long { n ≡ length (text_in C.Code.meaning environment.now value roll.now.entries.items (left_of texts.old)) }
        ensures written { (breaks : _) (w : World) → self ≡ delivery_of breaks (state_in texts.old roll.now w) → Written self breaks (value_in C.Code.meaning environment.now value (state_in texts.old roll.now w)) (state_in texts.old roll.now w) texts.new roll.now }
        ensures same_area { SameArea texts.old texts.new }
    {
        let dictionary = environment.dictionary;
        let store = environment.store;
        let library = environment.library;
        let write = |left: &[u8], part: &mut [u8]| {
            write_from(signs, roll, dictionary, store, library, value, left, part)
        };
        match self.placement {
            Placement::Active => texts.write_before_right(n, write),
            Placement::Passive => texts.write_behind_left(n, write),
            Placement::Break => {
                texts.drop_front(texts.right().len());
                texts.write_before_right(n, write);
            }
        }
    }
}
