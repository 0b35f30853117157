// A text cut into the pieces that are printed on lines of their own.
ghost use Rattle.std.specs.Prelude.{◌≡◌, ◌<◌, ◌≤◌, ◌==◌, ◌++◌, ◌∷◌, length, take, not, IfSome};
ghost use Rattle.std.specs.List.{prefix_len};
ghost use Rattle.std.specs.Option.{option_copied};
ghost use Rattle.machine.specs.Functions.{lines};
ghost use Rattle.printing.specs.Left.{lines_left, next_text};

// The most bytes on a line.
const LINE_WIDTH: usize = 132;

#[derive(Clone, Copy)]
pub(crate) struct FirstPiece<'a> {
    pub(crate) piece: &'a [u8],
    // what is printed behind it, unless it is the last piece
    pub(crate) rest: Option<&'a [u8]>,
}

// How long the first piece of a text is: it ends before an end of line, or as wide as a line.
fn piece_length(end_of_line: u8, text: &[u8]) -> usize
    ensures place { result ≡ prefix_len (λ b. not (b == end_of_line)) (take 132 text.now) }
    ensures within { result ≤ length text.now }
    ensures narrow { result ≤ 132 }
{
    text.iter()
        .take(LINE_WIDTH)
        .take_while(|byte| **byte != end_of_line)
        .count()
}

// What is left to be printed behind a piece that these bytes follow: an end of line there is that of the piece.
fn behind_piece(end_of_line: u8, following: &[u8]) -> Option<&[u8]>
    ensures { option_copied result ≡ next_text end_of_line following.now }
{
    match following {
        [] => None,
        [first, rest @ ..] if *first == end_of_line => Some(rest),
        _ => Some(following),
    }
}

// The first piece of a text, and what is left of it.
pub(crate) fn cut_off(end_of_line: u8, text: &[u8]) -> FirstPiece<'_>
    ensures lines { lines end_of_line 132 text.now ≡ result.piece.now ++ end_of_line ∷ lines_left end_of_line (option_copied result.rest) }
    ensures narrow { length result.piece.now ≤ 132 }
    ensures shorter { IfSome result.rest (λ rest. length rest.now < length text.now) }
{
    let (piece, following) = text.split_at(piece_length(end_of_line, text));
    FirstPiece {
        piece,
        rest: behind_piece(end_of_line, following),
    }
}
