// A value is written into what is free between the texts, and is taken into one of them.
ghost use Rattle.std.specs.Prelude.{◌≡◌, ℕ, ◌+◌, ◌-◌, ◌≤◌, List, ◌++◌, take, drop, length};
ghost use Rattle.scan.specs.Texts.{left_of, right_of, HasRoom, Become};
ghost use Rattle.scan.specs.Writing.{MayWrite, Writes};

use crate::texts::ScanTexts;

fn call<F: FnOnce(&[u8], &mut [u8])>(text: &[u8], part: &mut [u8], write: F)
    requires { MayWrite F.FnOnce write text.now (length part.old) }
    ensures { Writes F.FnOnce write text.now (length part.old) part.new }
{
    write(text, part);
}

// A call is shown the front of an area, and writes a part behind it.
fn write_part<F: FnOnce(&[u8], &mut [u8])>(
    area: &mut [u8],
    front: usize,
    start: usize,
    n: usize,
    write: F,
)
    requires within { (front ≤ start) × (start + n ≤ length area.old) }
    requires callable { MayWrite F.FnOnce write (take front area.old) n }
    ensures { (value : List ℕ) × Writes F.FnOnce write (take front area.old) n value × (length value ≡ n) × (area.new ≡ take start area.old ++ (value ++ drop (start + n) area.old)) }
{
    let (text, rest) = area.split_at_mut(front);
    let (_, rest) = rest.split_at_mut(start - front);
    call(text, &mut rest[..n], write);
}

impl<'a> ScanTexts<'a> {
    // A value of n bytes goes behind the left text: `write` is shown the left text, and writes the value.
    pub fn write_behind_left<F: FnOnce(&[u8], &mut [u8])>(&mut self, n: usize, write: F)
        requires room { HasRoom n self.old }
        requires callable { MayWrite F.FnOnce write (left_of self.old) n }
        ensures { (value : List ℕ) × Writes F.FnOnce write (left_of self.old) n value × (length value ≡ n) × Become self.old self.new (left_of self.old ++ value) (right_of self.old) }
    {
        let left = self.left;
        write_part(self.area, left, left, n, write);
        self.left += n;
    }

    // A value of n bytes goes before the right text, likewise.
    pub fn write_before_right<F: FnOnce(&[u8], &mut [u8])>(&mut self, n: usize, write: F)
        requires room { HasRoom n self.old }
        requires callable { MayWrite F.FnOnce write (left_of self.old) n }
        ensures { (value : List ℕ) × Writes F.FnOnce write (left_of self.old) n value × (length value ≡ n) × Become self.old self.new (left_of self.old) (value ++ right_of self.old) }
    {
        let (left, right) = (self.left, self.right - n);
        write_part(self.area, left, right, n, write);
        self.right = right;
    }

    // A value that lies elsewhere goes behind the left text.
    pub fn put_behind_left(&mut self, value: &[u8])
        requires { HasRoom (length value.now) self.old }
        ensures { Become self.old self.new (left_of self.old ++ value.now) (right_of self.old) }
    {
        self.write_behind_left(value.len(), |_, part| part.copy_from_slice(value));
    }

    // A value that lies elsewhere goes before the right text.
    pub fn put_before_right(&mut self, value: &[u8])
        requires { HasRoom (length value.now) self.old }
        ensures { Become self.old self.new (left_of self.old) (value.now ++ right_of self.old) }
    {
        self.write_before_right(value.len(), |_, part| part.copy_from_slice(value));
    }
}
