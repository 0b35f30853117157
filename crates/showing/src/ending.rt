// How a program ends.
ghost use Rattle.std.specs.Prelude.{◌≡◌, if◌then◌else◌, is_ok};
ghost use Rattle.std.specs.Process.{exit_status};

use std::fmt::Display;
use std::process::ExitCode;

// What `main` ends with: an error is printed on standard error, and the status is 1. One that `main` returned would be
// printed in another form.
pub fn exit_code<E: Display + Drop>(rt: &impl Eprint, done: Result<(), E>) -> ExitCode
    ensures { exit_status result ≡ (if is_ok done then 0 else 1) }
{
    match done {
        Ok(()) => ExitCode::SUCCESS,
        Err(error) => {
            eprintln!(rt; "{error}").ok();
            ExitCode::FAILURE
        }
    }
}
