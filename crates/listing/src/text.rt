// Bytes of a code as text.
ghost use Rattle.std.specs.Prelude.{◌≡◌, ◌+◌, ◌<◌, ◌≤◌, length, take, Some};
ghost use Rattle.std.specs.Fmt.{WritesOnOk};
ghost use Rattle.std.specs.Str.{IsAscii};
ghost use Rattle.listing.specs.Listing.{hex_digit, shown_hex, shown_mark, shown_byte, shown_text};
ghost use Rattle.listing.specs.Runs.{Puts};

use crate::glyphs::Glyphs;
use std::fmt;
use std::str::from_utf8;

// Puts a few characters into a run, at a place; where they end.
fn put(run: &mut [u8; 320], at: usize, text: &[u8]) -> usize
    requires fits { at + length text.now ≤ 320 }
    requires short { length text.now ≤ 5 }
    requires ascii { IsAscii text.now }
    ensures { Puts run.old at text.now run.new result }
{
    let end = at + text.len();
    run[at..end].copy_from_slice(text);
    end
}

// A digit in base 16: 0 to 9, A to F.
fn hex_digit(digit: u8) -> u8
    requires { digit < 16 }
    ensures { result ≡ hex_digit digit }
{
    if digit < 10 {
        b'0' + digit
    } else {
        b'A' + (digit - 10)
    }
}

// Puts a byte in base 16.
fn put_hex(run: &mut [u8; 320], at: usize, byte: u8) -> usize
    requires { at + 5 ≤ 320 }
    ensures { Puts run.old at (shown_hex byte) run.new result }
{
    let (high, low) = (hex_digit(byte / 16), hex_digit(byte % 16));
    put(run, at, &[b'{', b'x', high, low, b'}'])
}

// Puts a segment mark by its number.
fn put_mark(run: &mut [u8; 320], at: usize, mark: u8) -> usize
    requires { at + 5 ≤ 320 }
    ensures { Puts run.old at (shown_mark mark) run.new result }
{
    let ones = b'0' + mark % 10;
    if mark < 10 {
        return put(run, at, &[b'{', ones, b'}']);
    }
    let tens = b'0' + mark / 10 % 10;
    if mark < 100 {
        return put(run, at, &[b'{', tens, ones, b'}']);
    }
    put(run, at, &[b'{', b'0' + mark / 100, tens, ones, b'}'])
}

// Puts a byte by its glyph; the end of line, the marks and a byte without glyph in braces.
#[tactic(auto, unfolding(crate::specs::Listing::shown_byte))]
fn put_byte<C: Glyphs>(run: &mut [u8; 320], at: usize, code: &C, byte: u8) -> usize
    requires { at + 5 ≤ 320 }
    ensures { Puts run.old at (shown_byte C.Code.meaning C.Glyphs.glyph byte) run.new result }
{
    if byte == code.end_of_line() {
        return put(run, at, b"{/}");
    }
    if byte == code.creation_mark() {
        return put(run, at, b"{#}");
    }
    if let Some(mark) = code.mark_number(byte) {
        return put_mark(run, at, mark);
    }
    match code.glyph(byte) {
        Some(glyph) => put(run, at, &[glyph as u8]),
        None => put_hex(run, at, byte),
    }
}

// Puts some bytes as they are shown, from the front of the run on; each takes at most five characters.
fn put_bytes<C: Glyphs>(run: &mut [u8; 320], code: &C, bytes: &[u8]) -> usize
    requires { length bytes.now ≤ 64 }
    ensures within { result ≤ 320 }
    ensures shown { take result run.new ≡ shown_text C.Code.meaning C.Glyphs.glyph bytes.now }
    ensures ascii { IsAscii (take result run.new) }
{
    let mut end = 0;
    for &byte in bytes {
        end = put_byte(run, end, code, byte);
    }
    end
}

// Writes a run in one call.
fn write_run<W: fmt::Write>(f: &mut fmt::Formatter<W>, run: &[u8]) -> fmt::Result
    requires { IsAscii run.now }
    ensures { WritesOnOk W.write_str_gives f.old result run.now f.new }
{
    f.write_str(from_utf8(run).unwrap())
}

// A text as it is shown.
#[derive(Clone, Copy)]
pub struct ShownText<'a, C> {
    pub code: &'a C,
    pub text: &'a [u8],
}

impl<C: Glyphs> fmt::Display for ShownText<'_, C> {
    ghost output = { λ s. Some (shown_text C.Code.meaning C.Glyphs.glyph s.text.now) };

    // A write of many bytes costs little more than a write of one.
    fn fmt<W: fmt::Write>(&self, f: &mut fmt::Formatter<W>) -> fmt::Result {
        let mut run = [0u8; 320];
        for bytes in self.text.chunks(64) {
            let end = put_bytes(&mut run, self.code, bytes);
            write_run(f, &run[..end])?;
        }
        Ok(())
    }
}
