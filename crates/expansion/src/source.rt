// A source goes through the scan.
ghost use Rattle.std.specs.Prelude.{◌≡◌, ◌≤◌, length};
ghost use Rattle.expansion.specs.Expanding.{Expands};
ghost use Rattle.world.specs.Standing.{world_in, SameMemory};
ghost use Rattle.calls.specs.Ends.{MayCall};

use crate::scanning::scan_text;
use code::Code;
use library::Keeper;
use meter::{Meter, Question};
use refusal::Refusal;
use scan::{Roll, ScanTexts};
use signs::Signs;
use world::World;

// The answer is how long the text is, which begins the area then.
pub(crate) fn scan_source<C: Code, K: Keeper>(
    signs: &Signs<C>,
    world: &mut World<'_, K>,
    area: &mut [u8],
    source: &[u8],
    roll: &mut Roll,
    meter: &mut Meter,
) -> Result<usize, Refusal>
    requires area { length area.old ≡ meter.old.bounds.scan }
    requires roll { meter.old.bounds.roll ≤ roll.old.limit }
    requires ready { MayCall K.Reader world.old meter.old.bounds }
    requires allowed { meter.old.bounds.steps ≤ 1000000 }
    ensures expands { Expands C.Code.meaning source.now (world_in K.Reader world.old) (world_in K.Reader world.new) meter.old meter.new area.new result }
    ensures area { length area.new ≡ length area.old }
    ensures roll { roll.new.limit ≡ roll.old.limit }
    ensures memory { SameMemory K.Reader world.old world.new }
{
    meter.put(Question::Source, source.len())?;
    roll.clear();
    let mut texts = ScanTexts::load(area, source);
    scan_text(signs, world, &mut texts, roll, meter)?;
    Ok(texts.left().len())
}
