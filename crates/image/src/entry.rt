// The entries of an image's contents: 25 bytes for each string.
ghost use Rattle.std.specs.Prelude.{◌≡◌, ◌<◌, ◌==◌};
ghost use Rattle.std.specs.List.{list_all};
ghost use Rattle.std.specs.Str.{bytes_eq};
ghost use Rattle.image.specs.Contents.{program_of, text_size as size_of_text};
ghost use Rattle.image.specs.Questions.{well_named};
ghost use Rattle.image.specs.Reading.{entry_read};

// The bytes of one entry.
pub type EntryBytes = [u8; 25];

// What an entry says of its string: the length of its program's name and the 20 bytes that begin with that name,
// the lengths of its own name and of its body.
#[derive(Clone, Copy)]
pub struct Entry<'a> {
    pub bytes: &'a EntryBytes,
}

// Are all these bytes zero?
fn all_zero(bytes: &[u8]) -> bool
    ensures { result ≡ list_all (λ b. b == 0) bytes.now }
{
    bytes.iter().all(|byte| *byte == 0)
}

impl<'a> Entry<'a> {
    // The name of the program that the string belongs to.
    pub fn program(&self) -> &'a [u8]
        ensures { result.now ≡ program_of (entry_read self.now) }
    {
        let bytes = self.bytes;
        let field = &bytes[1..21];
        &field[..usize::from(bytes[0]).min(20)]
    }

    // Is the string one of the program of that name?
    pub fn is_of(&self, name: &[u8]) -> bool
        ensures { result ≡ bytes_eq (program_of (entry_read self.now)) name.now }
    {
        self.program() == name
    }

    // Is the program name 1 to 20 bytes long, and filled with zeros?
    pub fn is_well_named(&self) -> bool
        ensures { result ≡ well_named (entry_read self.now) }
    {
        let bytes = self.bytes;
        let length = usize::from(bytes[0]);
        let field = &bytes[1..21];
        if !(1..=20).contains(&length) {
            return false;
        }
        all_zero(&field[length..])
    }

    // How long its name is, and its body: two bytes each, high byte first.
    pub fn name_length(&self) -> usize
        ensures value { result ≡ (entry_read self.now).name_length }
        ensures bound { result < 65536 }
    {
        usize::from(u16::from_be_bytes([self.bytes[21], self.bytes[22]]))
    }

    pub fn body_length(&self) -> usize
        ensures value { result ≡ (entry_read self.now).body_length }
        ensures bound { result < 65536 }
    {
        usize::from(u16::from_be_bytes([self.bytes[23], self.bytes[24]]))
    }

    // The bytes of its name and body.
    pub fn text_size(&self) -> usize
        ensures value { result ≡ size_of_text (entry_read self.now) }
        ensures bound { result < 131072 }
    {
        self.name_length() + self.body_length()
    }
}
