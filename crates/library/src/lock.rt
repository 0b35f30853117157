// A library that nobody stores into: any reading library behind a lock.
ghost use Rattle.library.specs.Locked.{lock_meaning};

use crate::keeper::Keeper;
use crate::program_name::ProgramName;
use crate::reader::Reader;
use crate::space::Space;
use crate::string_view::StringView;
use crate::strings::Source;
use refusal::Refusal;

// The programs of the library inside, no space, locked.
#[derive(Drop)]
pub struct Lock<R> {
    pub inner: R,
}

impl<R: Reader> Reader for Lock<R> {
    ghost meaning = { lock_meaning R.Reader.meaning };

    ghost lawful = { λ lock. R.Reader.lawful lock.inner };

    fn programs(&self) -> usize {
        self.inner.programs()
    }

    fn name(&self, program: usize) -> Option<&[u8]> {
        self.inner.name(program)
    }

    fn strings(&self, program: usize) -> Option<usize> {
        self.inner.strings(program)
    }

    fn string(&self, program: usize, string: usize) -> Option<StringView<'_>> {
        self.inner.string(program, string)
    }

    fn space(&self) -> Space {
        Space::NONE
    }

    fn is_locked(&self) -> bool {
        true
    }
}

impl<R: Reader> Keeper for Lock<R> {
    fn store<S: Source>(&mut self, _name: &ProgramName, _strings: &S) -> Result<(), Refusal> {
        Err(Refusal::Locked)
    }

    fn delete(&mut self, _name: &ProgramName) -> Result<(), Refusal> {
        Err(Refusal::Locked)
    }
}
