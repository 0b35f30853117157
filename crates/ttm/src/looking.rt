// Look.
ghost use Rattle.std.specs.Prelude.{◌≡◌, ◌≤◌, length};
ghost use Rattle.library.specs.Meaning.{Library};
ghost use Rattle.machine.specs.Calls.{done, look, reply, finding_of};
ghost use Rattle.machine.specs.Dictionary.{look_up};
ghost use Rattle.dictionary.specs.Meant.{dictionary_in};
ghost use Rattle.ttm.specs.Kept.{memory_in};
ghost use Rattle.ttm.specs.Answers.{look_answer, shown};

use crate::entry::admit_look;
use crate::finding::Finding;
use crate::processor::Processor;
use code::Code;
use dictionary::Meaning;
use refusal::Refusal;

impl<C: Code> Processor<C> {
    // What a name means in the dictionary.
    pub fn look<'a>(&self, store: &'a [u8], name: &[u8]) -> Result<Finding<'a>, Refusal>
        ensures { (library : Library) → reply (look_answer result) ≡ (done C.Code.meaning self.now.limits (memory_in self.now store.now library) (look name.now (length store.now))).after.replied }
    {
        admit_look(self.limits, store.len())?;
        Ok(self.find(store, name))
    }

    fn find<'a>(&self, store: &'a [u8], name: &[u8]) -> Finding<'a>
        requires { self.now.dictionary.used ≤ length store.now }
        ensures { shown result ≡ finding_of (look_up C.Code.meaning (dictionary_in self.now.dictionary store.now) name.now) }
    {
        match self.dictionary.look_up(&self.signs, store, name) {
            Some(Meaning::String(string)) => Finding::String(self.dictionary.rest(store, string)),
            Some(Meaning::BuiltIn(_)) => Finding::BuiltIn,
            None => Finding::Absent,
        }
    }
}
