// Shows the demonstration image, and beside it a locked shelf of the same programs; or lists the image of the file that is
// named. A bad image is refused on standard error, and the program ends with status 1.

#![tactic(auto)]

mod demonstration;
mod filling;
mod show;

use demonstration::demonstrate;
use show::text_of;
use showing::{DEMO, exit_code};
use std::process::ExitCode;
use std::{env, fs};

fn print_granted(rt: &HostRuntime, title: &str, size: usize, text: &str) -> anyhow::Result<()> {
    print!(rt; "granted: {title}, {size} bytes\n{text}")?;
    Ok(())
}

fn run(rt: &HostRuntime) -> anyhow::Result<()> {
    match env::args(rt)?.nth(1) {
        Some(path) => {
            let image = fs::read(rt, path.as_str())?;
            let text = text_of(rt.alloc(), &image)?;
            print_granted(rt, path.as_str(), image.len(), text.as_str())
        }
        None => {
            let text = demonstrate(rt.alloc(), &DEMO)?;
            print_granted(rt, "the demonstration image", DEMO.len(), text.as_str())
        }
    }
}

fn main(rt: HostRuntime) -> ExitCode {
    let done = run(&rt);
    exit_code(&rt, done)
}
