// How the text of an area is read and written.
ghost use Rattle.std.specs.Prelude.{◌≡◌, ◌≤◌, ◌++◌, length, take};
ghost use Rattle.text_area.specs.Shown.{text_of, HasRoom, Becomes};

use crate::text_area::TextArea;

impl<'a> TextArea<'a> {
    // The text that the first bytes of an area are.
    pub fn with_text(area: &'a mut [u8], len: usize) -> TextArea<'a>
        requires { len ≤ length area.old }
        ensures text { text_of result ≡ take len area.old }
        ensures len { result.len ≡ len }
        ensures size { length result.area.now ≡ length area.old }
        ensures loan { result.area.ghost_name ≡ area.entry.ghost_name }
    {
        TextArea { area, len }
    }

    // How long the text is.
    pub fn len(&self) -> usize
        ensures { result ≡ length (text_of self.now) }
    {
        let TextArea { len, .. } = self;
        *len
    }

    // A piece goes behind the text.
    pub fn push(&mut self, piece: &[u8])
        requires { HasRoom (length piece.now) self.old }
        ensures { Becomes self.old self.new (text_of self.old ++ piece.now) }
    {
        let start = self.len;
        let end = start + piece.len();
        self.area[start..end].copy_from_slice(piece);
        self.len = end;
    }
}
