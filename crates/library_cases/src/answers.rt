// What is asked of a library, and its answer in words.
ghost use Rattle.std.specs.Prelude.{◌≡◌};
ghost use Rattle.std.specs.Result.{result_err};
ghost use Rattle.listing.specs.Adds.{Adds};
ghost use Rattle.library_cases.specs.Handed.{handed};
ghost use Rattle.library_cases.specs.Commands.{asked};
ghost use Rattle.library_cases.specs.Answers.{put_refusal, delete_refusal, after_put, after_delete, answered, left_by};

use crate::command::Task;
use crate::showing::{ShownLibrary, ShownOutcome, ShownPlace};
use crate::strings::Strings;
use library::{Keeper, ProgramName, find_program};
use refusal::Refusal;
use std::alloc::AllocError;

fn put<K: Keeper>(library: &mut K, name: &[u8], strings: &Strings) -> Result<(), Refusal>
    ensures refusal { result_err result ≡ put_refusal (K.Reader.meaning library.old) (record { name = name.now; strings = handed strings.now }) }
    ensures after { K.Reader.meaning library.new ≡ after_put (K.Reader.meaning library.old) (record { name = name.now; strings = handed strings.now }) }
{
    let name = ProgramName::try_from(name)?;
    library.store(&name, strings)
}

fn delete<K: Keeper>(library: &mut K, name: &[u8]) -> Result<(), Refusal>
    ensures refusal { result_err result ≡ delete_refusal (K.Reader.meaning library.old) name.now }
    ensures after { K.Reader.meaning library.new ≡ after_delete (K.Reader.meaning library.old) name.now }
{
    let name = ProgramName::try_from(name)?;
    library.delete(&name)
}

// Does what is asked and adds the answer to a text.
pub fn push_answer<K: Keeper>(
    out: &mut String,
    library: &mut K,
    task: &Task,
) -> Result<(), AllocError>
    ensures answer { Adds out.old result out.new (answered (K.Reader.meaning library.old) (asked task.now)) }
    ensures after { K.Reader.meaning library.new ≡ left_by (K.Reader.meaning library.old) (asked task.now) }
{
    match task {
        Task::Put(name, strings) => write!(out, "{}", ShownOutcome(put(library, name, strings))),
        Task::Delete(name) => write!(out, "{}", ShownOutcome(delete(library, name))),
        Task::Find(name) => write!(out, "{}", ShownPlace(find_program(library, name))),
        Task::Show => write!(out, "{}", ShownLibrary(library)),
    }
}
