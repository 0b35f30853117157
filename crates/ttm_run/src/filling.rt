// A library filled with the programs of another; a draft is stored among them and deleted again.
ghost use Rattle.std.specs.Result.{result_err};
ghost use Rattle.exchange.specs.Stopping.{ComesTo};
ghost use Rattle.library.specs.Operations.{program_of};
ghost use Rattle.ttm_run.specs.Filling.{filling, DraftLeavesNothing};

use exchange::store_programs;
use library::{Keeper, ProgramName, Reader, Source};
use refusal::Refusal;

// Stores the programs of `from` before `middle`, then a draft of that name with these strings, then the other programs,
// and deletes the draft; it stops at the first that is refused.
pub fn fill<R: Reader, K: Keeper, S: Source>(
    library: &mut K,
    from: &R,
    middle: usize,
    name: &ProgramName,
    strings: &S,
) -> Result<(), Refusal>
    ensures filled { ComesTo (K.Reader.meaning library.old) (filling middle (program_of name.now (S.Source.strings strings.now)) (R.Reader.meaning from.now).programs) (result_err result) (K.Reader.meaning library.new) }
    ensures law { DraftLeavesNothing }
{
    let end = from.programs();
    store_programs(library, from, 0, middle)?;
    library.store(name, strings)?;
    store_programs(library, from, middle, end)?;
    library.delete(name)
}
