// Questions about needs that are known.
ghost use Rattle.std.specs.Prelude.{◌≡◌, ◌≤◌, length};
ghost use Rattle.machine.specs.Dictionary.{bytes_in};
ghost use Rattle.machine.specs.World.{World, names_and_store, store_only, print_only};
ghost use Rattle.dictionary.specs.Needing.{Takes, capped};
ghost use Rattle.asking.specs.Answers.{Answers};

use dictionary::Needs;
use meter::{Meter, Question};
use refusal::Refusal;

// Do the names fit, and then the store?
pub(crate) fn ask_names_and_store(needs: Needs, meter: &mut Meter) -> Result<(), Refusal>
    requires { meter.old.bounds.store ≤ 32768 }
    ensures { (v : World) → Takes needs v.dictionary → Answers meter.old meter.new result names_and_store v }
{
    meter.put(Question::Names, needs.names)?;
    meter.put(Question::Store, needs.bytes)
}

// Does the store fit?
pub(crate) fn ask_store(bytes: usize, meter: &mut Meter) -> Result<(), Refusal>
    requires { meter.old.bounds.store ≤ 32768 }
    ensures { (v : World) → bytes ≡ capped (bytes_in v.dictionary) → Answers meter.old meter.new result store_only v }
{
    meter.put(Question::Store, bytes)
}

// Does what is printed fit?
pub(crate) fn ask_print(bytes: usize, meter: &mut Meter) -> Result<(), Refusal>
    requires { meter.old.bounds.print ≤ 32768 }
    ensures { (v : World) → bytes ≡ capped (length v.printed) → Answers meter.old meter.new result print_only v }
{
    meter.put(Question::Print, bytes)
}
