// What stores programs in a library and deletes them.
ghost use Rattle.std.specs.Prelude.{◌≡◌};
ghost use Rattle.std.specs.Result.{result_err};
ghost use Rattle.refusal.specs.Outcome.{kept_or};
ghost use Rattle.library.specs.Name.{name_bytes};
ghost use Rattle.library.specs.Keeping.{with_program, without_program};
ghost use Rattle.library.specs.Keeping.{store_refusal as refusal_of_store, delete_refusal as refusal_of_delete};

use crate::program_name::ProgramName;
use crate::reader::Reader;
use crate::strings::Source;
use refusal::Refusal;

// A refused call changes nothing.
pub trait Keeper: Reader {
    // Adds a program at the end.
    fn store<S: Source>(&mut self, name: &ProgramName, strings: &S) -> Result<(), Refusal>
        ensures refusal { result_err result ≡ refusal_of_store (Self.Reader.meaning self.old) (record { name = name_bytes name.now; strings = S.Source.strings strings.now }) }
        ensures after { Self.Reader.meaning self.new ≡ kept_or (result_err result) (with_program (Self.Reader.meaning self.old) (record { name = name_bytes name.now; strings = S.Source.strings strings.now })) (Self.Reader.meaning self.old) };

    // Removes the program of that name.
    fn delete(&mut self, name: &ProgramName) -> Result<(), Refusal>
        ensures refusal { result_err result ≡ refusal_of_delete (Self.Reader.meaning self.old) (name_bytes name.now) }
        ensures after { Self.Reader.meaning self.new ≡ kept_or (result_err result) (without_program (Self.Reader.meaning self.old) (name_bytes name.now)) (Self.Reader.meaning self.old) };
}
