// The programs of a library stored in another.
ghost use Rattle.std.specs.Result.{result_err};
ghost use Rattle.library.specs.Meaning.{program_at};
ghost use Rattle.exchange.specs.Stopping.{ComesTo};
ghost use Rattle.std.specs.List.{between};
ghost use Rattle.exchange.specs.Copying.{store_of, stores, StoredInOrder};

use library::{Keeper, ProgramName, Reader, view_program};
use refusal::Refusal;

// Stores the program at that place of `from`; past the last one, nothing.
fn store_program<R: Reader, K: Keeper>(
    library: &mut K,
    from: &R,
    program: usize,
) -> Result<(), Refusal>
    ensures { ComesTo (K.Reader.meaning library.old) (store_of (program_at (R.Reader.meaning from.now).programs program)) (result_err result) (K.Reader.meaning library.new) }
{
    let Some(program) = view_program(from, program) else {
        return Ok(());
    };
    let name = ProgramName::try_from(program.name)?;
    library.store(&name, &program)
}

// Stores the programs of `from` at `first` and after it, and before `end`, in their order, up to the first that is refused.
pub fn store_programs<R: Reader, K: Keeper>(
    library: &mut K,
    from: &R,
    first: usize,
    end: usize,
) -> Result<(), Refusal>
    ensures stored { ComesTo (K.Reader.meaning library.old) (stores (between first end (R.Reader.meaning from.now).programs)) (result_err result) (K.Reader.meaning library.new) }
    ensures law { StoredInOrder }
{
    for program in first..end {
        store_program(library, from, program)?;
    }
    Ok(())
}
