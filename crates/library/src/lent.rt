// A reference to a library is a library, and one to strings is strings.
use crate::lending::Lends;
use crate::reader::Reader;
use crate::space::Space;
use crate::string_view::StringView;
use crate::strings::Source;

// A library that is lent is a library.
impl<P: Lends> Reader for P
where
    P::Target: Reader,
{
    ghost meaning = { λ lender. P.Target.Reader.meaning (P.Lends.lent lender) };

    ghost lawful = { λ lender. P.Target.Reader.lawful (P.Lends.lent lender) };

    fn programs(&self) -> usize {
        self.target().programs()
    }

    fn name(&self, program: usize) -> Option<&[u8]> {
        self.target().name(program)
    }

    fn strings(&self, program: usize) -> Option<usize> {
        self.target().strings(program)
    }

    fn string(&self, program: usize, string: usize) -> Option<StringView<'_>> {
        self.target().string(program, string)
    }

    fn space(&self) -> Space {
        self.target().space()
    }

    fn is_locked(&self) -> bool {
        self.target().is_locked()
    }
}

// Strings that are lent are strings.
impl<P: Lends> Source for P
where
    P::Target: Source,
{
    ghost strings = { λ lender. P.Target.Source.strings (P.Lends.lent lender) };

    fn count(&self) -> usize {
        self.target().count()
    }

    fn string(&self, string: usize) -> Option<StringView<'_>> {
        self.target().string(string)
    }
}
