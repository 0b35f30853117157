// A source is expanded in a dictionary, a library and the areas that are lent for it.
ghost use Rattle.std.specs.Prelude.{◌≡◌, ◌≤◌, [], length, take};
ghost use Rattle.expansion.specs.Expanding.{Expands, Suffice, world_of_parts};

use crate::expanded::Expanded;
use crate::source::scan_source;
use code::Code;
use dictionary::Dictionary;
use library::Keeper;
use meter::Meter;
use scan::Roll;
use signs::Signs;
use world::World;

pub fn expand_source<C: Code, K: Keeper>(
    signs: &Signs<C>,
    dictionary: &mut Dictionary,
    roll: &mut Roll,
    library: &mut K,
    store: &mut [u8],
    scan: &mut [u8],
    print: &mut [u8],
    called: &mut [u8],
    scratch: &mut [u8],
    source: &[u8],
    meter: &mut Meter,
) -> Expanded
    requires whole { dictionary.old.used ≤ length store.old }
    requires suffice { Suffice meter.old.bounds dictionary.old.most_rows roll.old.limit (length store.old) (length scan.old) (length print.old) (length called.old) (length scratch.old) }
    ensures expands { Expands C.Code.meaning source.now (world_of_parts dictionary.old store.old (K.Reader.meaning library.old) [] []) (world_of_parts dictionary.new store.new (K.Reader.meaning library.new) (take result.printed print.new) (take result.called called.new)) meter.old meter.new scan.new result.outcome }
    ensures whole { dictionary.new.used ≤ length store.new }
    ensures rows { dictionary.new.most_rows ≡ dictionary.old.most_rows }
    ensures roll { roll.new.limit ≡ roll.old.limit }
    ensures printed { result.printed ≤ length print.new }
    ensures called { result.called ≤ length called.new }
    ensures scan { length scan.new ≡ length scan.old }
{
    let mut world = World {
        dictionary,
        store,
        library,
        print,
        printed: 0,
        called_name: called,
        called: 0,
        scratch,
    };
    let outcome = scan_source(signs, &mut world, scan, source, roll, meter);
    Expanded {
        outcome,
        printed: world.printed,
        called: world.called,
    }
}
