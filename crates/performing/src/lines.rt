// What is printed.
ghost use Rattle.std.specs.Prelude.{◌≡◌, ◌≤◌, ◌+◌, ◌++◌, length, take};
ghost use Rattle.machine.specs.Functions.{lines};
ghost use Rattle.machine.specs.World.{print_more, p1};
ghost use Rattle.world.specs.Standing.{world_in, SameMemory};

use code::Code;
use library::Keeper;
use printing::print_lines;
use scan::Parameters;
use signs::Signs;
use text_area::TextArea;
use world::World;

// The lines of a text are printed behind what begins an area; the answer is how long that is then.
fn print_behind(area: &mut [u8], len: usize, end_of_line: u8, text: &[u8]) -> usize
    requires within { len ≤ length area.old }
    requires room { len + length (lines end_of_line 132 text.now) ≤ length area.old }
    ensures printed { take result area.new ≡ take len area.old ++ lines end_of_line 132 text.now }
    ensures within { result ≤ length area.new }
    ensures size { length area.new ≡ length area.old }
{
    let mut printed = TextArea::with_text(area, len);
    print_lines(&mut printed, end_of_line, text);
    printed.len()
}

// Parameter 1 is printed.
pub(crate) fn print<C: Code, K: Keeper>(
    world: &mut World<'_, K>,
    signs: &Signs<C>,
    parameters: &Parameters<'_>,
)
    requires room { length (take world.old.printed world.old.print.now ++ lines C.Code.meaning.end_of_line 132 (p1 parameters.now)) ≤ length world.old.print.now }
    ensures world { world_in K.Reader world.new ≡ print_more (lines C.Code.meaning.end_of_line 132 (p1 parameters.now)) (world_in K.Reader world.old) }
    ensures memory { SameMemory K.Reader world.old world.new }
{
    let print = &mut *world.print;
    world.printed = print_behind(print, world.printed, signs.end_of_line, parameters.get(0));
}
