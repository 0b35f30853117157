// How the texts of a scan change.
ghost use Rattle.std.specs.Prelude.{◌≡◌, ◌≤◌, [], ◌++◌, take, drop, length};
ghost use Rattle.scan.specs.Texts.{left_of, right_of, Become};

use crate::texts::ScanTexts;

impl<'a> ScanTexts<'a> {
    // The source becomes the right text, and the left text is empty.
    pub fn load(area: &'a mut [u8], source: &[u8]) -> ScanTexts<'a>
        requires { length source.now ≤ length area.old }
        ensures left { left_of result ≡ [] }
        ensures right { right_of result ≡ source.now }
        ensures size { length result.area.now ≡ length area.old }
        ensures loan { result.area.ghost_name ≡ area.entry.ghost_name }
    {
        let right = area.len() - source.len();
        area[right..].copy_from_slice(source);
        ScanTexts {
            area,
            left: 0,
            right,
        }
    }

    pub fn left(&self) -> &[u8]
        ensures { result.now ≡ left_of self.now }
    {
        &self.area[..self.left]
    }

    pub fn right(&self) -> &[u8]
        ensures { result.now ≡ right_of self.now }
    {
        &self.area[self.right..]
    }

    // Bytes at the front of the right text are dropped.
    pub fn drop_front(&mut self, n: usize)
        requires { n ≤ length (right_of self.old) }
        ensures { Become self.old self.new (left_of self.old) (drop n (right_of self.old)) }
    {
        self.right += n;
    }

    // Bytes at the front of the right text move behind the left text.
    pub fn move_front(&mut self, n: usize)
        requires { n ≤ length (right_of self.old) }
        ensures { Become self.old self.new (left_of self.old ++ take n (right_of self.old)) (drop n (right_of self.old)) }
    {
        let (left, right) = (self.left, self.right);
        self.area.copy_within(right..right + n, left);
        self.left = left + n;
        self.right = right + n;
    }

    // The left text is cut back to its first bytes, if it has more.
    pub fn cut_left(&mut self, at: usize)
        ensures { Become self.old self.new (take at (left_of self.old)) (right_of self.old) }
    {
        self.left = self.left.min(at);
    }

    // A part of the left text goes.
    pub fn remove_left(&mut self, start: usize, end: usize)
        requires { (start ≤ end) × (end ≤ length (left_of self.old)) }
        ensures { Become self.old self.new (take start (left_of self.old) ++ drop end (left_of self.old)) (right_of self.old) }
    {
        let left = self.left;
        self.area.copy_within(end..left, start);
        self.left -= end - start;
    }
}
