// A program that is taken out of a shelf: what lies behind it moves down, so that its space is free at once.
ghost use Rattle.std.specs.Prelude.{◌≡◌, ◌<◌, Some, vec_len};
ghost use Rattle.library.specs.Keeping.{without_found};
ghost use Rattle.shelf.specs.Shelved.{meaning_of};

use crate::shelf::Shelf;

impl Shelf {
    // Removes a program.
    pub(crate) fn remove(&mut self, program: usize)
        requires { program < vec_len self.old.programs }
        ensures { meaning_of self.new ≡ without_found (meaning_of self.old) (Some program) }
    {
        let start = self.place(program);
        let end = self.place(program + 1);
        self.programs.remove(program);
        self.strings.drain(start.string..end.string);
        self.bytes.drain(start.byte..end.byte);
    }
}
