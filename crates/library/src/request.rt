// Stores and deletes that a host asks for, one by one or many in turn.
ghost use Rattle.std.specs.Prelude.{◌≡◌, map};
ghost use Rattle.std.specs.Result.{result_err};
ghost use Rattle.library.specs.Operations.{operation as operation_of, refusal_of, after as left_by, after_all as left_by_all, refusals as refusals_of};
ghost use Rattle.library.specs.Laws.{LawfulAfterStore, LawfulAfterDelete, SpaceIsKept, whole_space};

use crate::keeper::Keeper;
use crate::program_name::ProgramName;
use crate::strings::Source;
use refusal::Refusal;

#[derive(Drop)]
pub enum Request<S> {
    // a program of that name and with these strings
    Store(ProgramName, S),
    // the program of that name
    Delete(ProgramName),
}

// Stores or deletes, as the request says.
pub fn carry_out<K: Keeper, S: Source>(library: &mut K, request: &Request<S>) -> Result<(), Refusal>
    ensures refusal { result_err result ≡ refusal_of (K.Reader.meaning library.old) (operation_of S.Source.strings request.now) }
    ensures after { K.Reader.meaning library.new ≡ left_by (K.Reader.meaning library.old) (operation_of S.Source.strings request.now) }
    ensures law { LawfulAfterStore × LawfulAfterDelete }
{
    match request {
        Request::Store(name, strings) => library.store(name, strings),
        Request::Delete(name) => library.delete(name),
    }
}

// Carries out each request in turn, goes on after a refused one, and says how many were refused.
pub fn carry_out_all<K: Keeper, S: Source>(library: &mut K, requests: &[Request<S>]) -> usize
    ensures refused { result ≡ refusals_of (K.Reader.meaning library.old) (map (operation_of S.Source.strings) requests.now) }
    ensures after { K.Reader.meaning library.new ≡ left_by_all (K.Reader.meaning library.old) (map (operation_of S.Source.strings) requests.now) }
    ensures space { whole_space (K.Reader.meaning library.new) ≡ whole_space (K.Reader.meaning library.old) }
    ensures law { SpaceIsKept }
{
    let mut refused = 0;
    for request in requests {
        if carry_out(library, request).is_err() {
            refused += 1;
        }
    }
    refused
}
