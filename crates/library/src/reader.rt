// What reads a library of programs.
ghost use Rattle.std.specs.Prelude.{◌≡◌, length};
ghost use Rattle.std.specs.Option.{option_map};
ghost use Rattle.library.specs.Meaning.{Library, Lawful, Program, program_at, name_at, string_at};
ghost use Rattle.library.specs.Views.{string_viewed};

use crate::space::Space;
use crate::string_view::StringView;

// Programs and strings are counted from 0; past the end the answer is `None`.
pub trait Reader {
    ghost meaning: { Self → Library };

    // Names of programs are 1 to 20 bytes long and distinct.
    ghost lawful: { (library : Self) → Lawful (meaning library).programs };

    // How many programs there are.
    fn programs(&self) -> usize
        ensures { result ≡ length (meaning self.now).programs };

    // The name of a program.
    fn name(&self, program: usize) -> Option<&[u8]>
        ensures { option_map (λ x. x.now) result ≡ name_at (meaning self.now).programs program };

    // How many strings it has.
    fn strings(&self, program: usize) -> Option<usize>
        ensures { result ≡ option_map (λ (p : Program). length p.strings) (program_at (meaning self.now).programs program) };

    // A string of a program.
    fn string(&self, program: usize, string: usize) -> Option<StringView<'_>>
        ensures { option_map string_viewed result ≡ string_at (meaning self.now).programs program string };

    // The space left.
    fn space(&self) -> Space
        ensures { result ≡ (meaning self.now).space };

    // A locked library stores and deletes nothing.
    fn is_locked(&self) -> bool
        ensures { result ≡ (meaning self.now).locked };
}
