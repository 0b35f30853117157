// The lines of a text: how long they are together, and how they are printed.
ghost use Rattle.std.specs.Prelude.{◌≡◌, ◌++◌, length};
ghost use Rattle.machine.specs.Functions.{lines};
ghost use Rattle.text_area.specs.Shown.{text_of, HasRoom, Becomes};
ghost use Rattle.value.specs.Texts.{capped};

use crate::cutting::cut_off;
use text_area::TextArea;

// How many bytes the lines of a text take, or the largest usize where they take more.
pub fn lines_length(end_of_line: u8, text: &[u8]) -> usize
    ensures { result ≡ capped (length (lines end_of_line 132 text.now)) }
{
    let mut len: usize = 0;
    let mut left = Some(text);
    while let Some(text) = left {
        let cut = cut_off(end_of_line, text);
        len = len.saturating_add(cut.piece.len() + 1);
        left = cut.rest;
    }
    len
}

// Prints the lines of a text.
pub fn print_lines(printed: &mut TextArea<'_>, end_of_line: u8, text: &[u8])
    requires { HasRoom (length (lines end_of_line 132 text.now)) printed.old }
    ensures { Becomes printed.old printed.new (text_of printed.old ++ lines end_of_line 132 text.now) }
{
    let mut left = Some(text);
    while let Some(text) = left {
        let cut = cut_off(end_of_line, text);
        printed.push(cut.piece);
        printed.push(&[end_of_line]);
        left = cut.rest;
    }
}
