// Where a text stands in another.
ghost use Rattle.std.specs.Prelude.{◌≡◌};
ghost use Rattle.machine.specs.Texts.{begins, found_at};

// Does the text begin with that one?
pub fn begins(text: &[u8], sought: &[u8]) -> bool
    ensures { result ≡ begins sought.now text.now }
{
    text.starts_with(sought)
}

// The first place of the sought text; an empty one is nowhere.
pub fn find(text: &[u8], sought: &[u8]) -> Option<usize>
    ensures { result ≡ found_at sought.now text.now }
{
    if sought.is_empty() {
        return None;
    }
    text.windows(sought.len())
        .position(|window| window == sought)
}
