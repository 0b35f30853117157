// Opens each image of a table, which tests/image-cases.py writes, and compares what open answers with what the table
// expects. A line of the table: the code's number, the answer, the image in hex or - for no byte, the case's name.
// Before that it uses an image as a host does; what must not build is tried on copies of it (tests/must-not-build).

#![tactic(auto)]

mod answer;
mod host;

use answer::answer;
use anyhow::anyhow;
use code::{Ascii, Ebcdic};
use hex_text::unhex;
use host::find_and_clear;

// An image of one program, CLOCK, with one string, HOUR, whose body is 12.
const CLOCK: [u8; 33] = *b"\x01\x01\x05CLOCK\0\0\0\0\0\0\0\0\0\0\0\0\0\0\0\0\x04\0\x02HOUR12";

// A host's own buffer: opened, asked for a program and cleared.
fn run_host(rt: &HostRuntime) -> anyhow::Result<()> {
    let mut buffer = CLOCK;
    match find_and_clear(&Ascii, &mut buffer, b"CLOCK") {
        Ok(Some(place)) => println!(rt; "a host's buffer: CLOCK is program {place}")?,
        Ok(None) => return Err(anyhow!("the host's program is not found")),
        Err(_) => return Err(anyhow!("the host's image is refused")),
    }
    let first = buffer[0];
    println!(rt; "a host's buffer, cleared, begins with {first}")?;
    Ok(())
}

// The answer to a case in the code of that number.
fn open_in(rt: &HostRuntime, number: &str, image: &[u8]) -> anyhow::Result<String> {
    match number {
        "1" => Ok(answer(rt.alloc(), &Ascii, image)?),
        "2" => Ok(answer(rt.alloc(), &Ebcdic, image)?),
        _ => Err(anyhow!("a code that is not known")),
    }
}

// Runs one line of the table and prints what came; whether it was as expected.
fn run_case(rt: &HostRuntime, line: &str) -> anyhow::Result<bool> {
    let mut words = line.splitn(4, ' ');
    let (Some(number), Some(expected), Some(digits), Some(name)) = (
        words.next(),
        words.next(),
        words.next(),
        words.next(),
    ) else {
        return Err(anyhow!("a line of fewer than four words"));
    };
    let digits = if digits == "-" { "" } else { digits };
    let Some(image) = unhex(rt.alloc(), digits.as_bytes())? else {
        return Err(anyhow!("an image that is not in hex"));
    };
    let answered = open_in(rt, number, &image)?;
    let right = answered.as_str() == expected;
    let verdict = if right { "as expected" } else { "WRONG" };
    println!(rt; "code {number}, {name}: {answered}, {verdict}")?;
    Ok(right)
}

fn main(rt: HostRuntime) -> anyhow::Result<()> {
    run_host(&rt)?;
    let mut cases = 0u32;
    let mut wrong = 0u32;
    for line in rt.lines(rt.alloc()) {
        let line = line?;
        cases = cases.saturating_add(1);
        if !run_case(&rt, line.as_str())? {
            wrong = wrong.saturating_add(1);
        }
    }
    println!(rt; "{cases} cases, {wrong} wrong")?;
    if wrong > 0 {
        return Err(anyhow!("a case went wrong"));
    }
    Ok(())
}
