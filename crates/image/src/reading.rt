// An opened image as a library: its programs, no space, locked.
ghost use Rattle.image.specs.Granting.{meaning_of};

use crate::granted::Image;
use library::{Reader, Space, StringView};

impl<'a> Reader for Image<'a> {
    ghost meaning = { meaning_of };

    ghost lawful = { λ image. record { fit = image.fit; distinct = image.distinct } };

    fn programs(&self) -> usize {
        self.iter().count()
    }

    fn name(&self, program: usize) -> Option<&[u8]> {
        self.programs_from(program).first_name()
    }

    fn strings(&self, program: usize) -> Option<usize> {
        let program = self.program(program)?;
        Some(program.entries.len())
    }

    fn string(&self, program: usize, string: usize) -> Option<StringView<'_>> {
        self.programs_from(program).first_string(string)
    }

    fn space(&self) -> Space {
        Space::NONE
    }

    fn is_locked(&self) -> bool {
        true
    }
}
