// A shelf as a library that stores and deletes.
use crate::shelf::Shelf;
use library::{Keeper, ProgramName, Source, find_program};
use refusal::Refusal;

impl Keeper for Shelf {
    fn store<S: Source>(&mut self, name: &ProgramName, strings: &S) -> Result<(), Refusal> {
        let name = name.as_bytes();
        if find_program(self, name).is_some() {
            return Err(Refusal::ProgramPresent);
        }
        if !self.has_space(name, strings) {
            return Err(Refusal::LibraryFull);
        }
        self.add(name, strings);
        Ok(())
    }

    fn delete(&mut self, name: &ProgramName) -> Result<(), Refusal> {
        let program = find_program(self, name.as_bytes()).ok_or(Refusal::ProgramAbsent)?;
        self.remove(program);
        Ok(())
    }
}
