// What the table says of a built-in function.
ghost use Rattle.std.specs.Prelude.{◌≡◌, ◌<◌};
ghost use Rattle.machine.specs.BuiltIns.{least};
ghost use Rattle.built_ins.specs.Places.{StandsAt, PlacesDiffer};

use crate::table::built_ins;
use machine::BuiltIn;

// Its place in the list of all built-in functions.
pub fn place_of(function: BuiltIn) -> usize
    ensures place { StandsAt function result }
    ensures bound { result < 46 }
    ensures differ { PlacesDiffer }
{
    built_ins()
        .iter()
        .position(|entry| entry.function == function)
        .unwrap()
}

// The smallest number of parameters that it takes.
pub fn least_parameters(function: BuiltIn) -> usize
    ensures { result ≡ least function }
{
    built_ins()[place_of(function)].least
}
