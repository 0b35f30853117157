// The answer to each line of a script.
ghost use Rattle.std.specs.Prelude.{◌≡◌, IfOk};
ghost use Rattle.listing.specs.Adds.{Adds};
ghost use Rattle.library_cases.specs.Commands.{meant};
ghost use Rattle.library_cases.specs.Scripts.{kept_meaning, is_title as begins_title, after_command, answer_to_command, after_line, answer_to_line};

use crate::command::Command;
use crate::kept::Kept;
use crate::read_error::ReadError;
use crate::reading::parse;
use std::alloc::{AllocError, Global};

// Does what a command says, and adds the answer.
fn obey(
    heap: Global,
    mut kept: Kept,
    command: &Command,
    out: &mut String,
) -> Result<Kept, AllocError>
    ensures answer { Adds out.old result out.new (answer_to_command (kept_meaning kept) (meant command.now)) }
    ensures after { IfOk result (λ k. kept_meaning k ≡ after_command (kept_meaning kept) (meant command.now)) }
{
    let kept = match command {
        Command::Shelf => Kept::new(heap)?,
        Command::Lock => kept.lock(),
        Command::Ask(task) => {
            kept.ask(task, out)?;
            return Ok(kept);
        }
    };
    out.push_str("ok")?;
    Ok(kept)
}

fn is_title(line: &str) -> bool
    ensures { result ≡ begins_title line.now }
{
    line.starts_with('%')
}

// Does what a line of a script says, and adds the answer.
pub fn push_line(heap: Global, kept: Kept, line: &str, out: &mut String) -> Result<Kept, AllocError>
    ensures answer { Adds out.old result out.new (answer_to_line (kept_meaning kept) line.now) }
    ensures after { IfOk result (λ k. kept_meaning k ≡ after_line (kept_meaning kept) line.now) }
{
    if is_title(line) {
        out.push_str(line)?;
        return Ok(kept);
    }
    match parse(heap, line) {
        Ok(command) => obey(heap, kept, &command, out),
        Err(ReadError::BadLine) => {
            out.push_str("bad line")?;
            Ok(kept)
        }
        Err(ReadError::NoMemory(error)) => Err(error),
    }
}
