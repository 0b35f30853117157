// Runs a script of operations on a bounded library, which tests/library-cases.py writes, and answers each line by a line.
// A line of the script is one of these; bytes are in hex, and - is for none:
//   % TITLE                     a title, which is repeated
//   shelf                       the library is an empty shelf
//   put NAME K S1 B1 .. SK BK   stores a program of K strings
//   delete NAME                 deletes a program
//   lock                        from now on the library is locked
//   find NAME                   where a program stands
//   lib                         the whole library
// Any other line is answered by `bad line`.

#![tactic(auto)]

mod answers;
mod command;
mod kept;
mod read_error;
mod reading;
mod script;
mod showing;
mod strings;
mod words;

use kept::Kept;
use script::push_line;

fn main(rt: HostRuntime) -> anyhow::Result<()> {
    let mut kept = Kept::new(rt.alloc())?;
    for line in rt.lines(rt.alloc()) {
        let line = line?;
        let mut answer = String::new(rt.alloc());
        kept = push_line(rt.alloc(), kept, line.as_str(), &mut answer)?;
        println!(rt; "{answer}")?;
    }
    Ok(())
}
