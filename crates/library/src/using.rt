// What a host does with any library that keeps programs.
ghost use Rattle.std.specs.Prelude.{◌≡◌, MatchResult};
ghost use Rattle.std.specs.Result.{result_err};
ghost use Rattle.refusal.specs.Outcome.{kept_or};
ghost use Rattle.library.specs.Keeping.{with_program, store_refusal as refusal_of_store};
ghost use Rattle.library.specs.Operations.{program_of};
ghost use Rattle.library.specs.Laws.{StandsAt, StoredIsFound, DeleteUndoesStore};

use crate::keeper::Keeper;
use crate::program_name::ProgramName;
use crate::strings::Source;
use refusal::Refusal;

// Stores a program and says at which place it is found then. A refused one changes nothing.
pub fn store_and_find<K: Keeper, S: Source>(
    library: &mut K,
    name: &ProgramName,
    strings: &S,
) -> Result<usize, Refusal>
    ensures refusal { result_err result ≡ refusal_of_store (K.Reader.meaning library.old) (program_of name.now (S.Source.strings strings.now)) }
    ensures after { K.Reader.meaning library.new ≡ kept_or (result_err result) (with_program (K.Reader.meaning library.old) (program_of name.now (S.Source.strings strings.now))) (K.Reader.meaning library.old) }
    ensures stands { MatchResult result (λ k. StandsAt k (K.Reader.meaning library.new) (program_of name.now (S.Source.strings strings.now))) (λ _. K.Reader.meaning library.new ≡ K.Reader.meaning library.old) }
    ensures law { StoredIsFound }
{
    let place = library.programs();
    library.store(name, strings)?;
    Ok(place)
}

// Whether a program could be stored: the library stays as it is.
pub fn try_out<K: Keeper, S: Source>(
    library: &mut K,
    name: &ProgramName,
    strings: &S,
) -> Result<(), Refusal>
    ensures refusal { result_err result ≡ refusal_of_store (K.Reader.meaning library.old) (program_of name.now (S.Source.strings strings.now)) }
    ensures same { K.Reader.meaning library.new ≡ K.Reader.meaning library.old }
    ensures law { DeleteUndoesStore }
{
    library.store(name, strings)?;
    library.delete(name)
}
