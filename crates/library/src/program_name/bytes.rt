// A program name from bytes, and back.
ghost use Rattle.std.specs.Prelude.{◌≡◌, is_some, if◌then◌else◌, Some, None};
ghost use Rattle.std.specs.Option.{option_map};
ghost use Rattle.library.specs.Meaning.{NameLength};
ghost use Rattle.library.specs.Name.{name_bytes, fits_name, NamedBy};

use super::{LONGEST, ProgramName};
use refusal::Refusal;

impl ProgramName {
    // `None` unless there are 1 to 20 bytes.
    pub fn new(bytes: &[u8]) -> Option<ProgramName>
        ensures made { is_some result ≡ fits_name bytes.now }
        ensures value { option_map name_bytes result ≡ (if fits_name bytes.now then Some bytes.now else None) }
    {
        let len = bytes.len();
        if len == 0 || len > LONGEST {
            return None;
        }
        let mut kept = [0; LONGEST];
        kept[0..len].copy_from_slice(bytes);
        Some(ProgramName { bytes: kept, len })
    }

    // The bytes that the name was made of: 1 to 20.
    pub fn as_bytes(&self) -> &[u8]
        ensures value { result.now ≡ name_bytes self.now }
        ensures len { NameLength result.now }
    {
        let len = self.len;
        &self.bytes[..len]
    }
}

// Bytes that are no name are refused.
impl TryFrom<&[u8]> for ProgramName {
    type Error = Refusal;

    ghost try_from_gives = { NamedBy };

    fn try_from(bytes: &[u8]) -> Result<ProgramName, Refusal> {
        ProgramName::new(bytes).ok_or(Refusal::ProgramNameLength)
    }
}
