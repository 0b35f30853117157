// Texts in ASCII, spelled in EBCDIC.

use std::alloc::{AllocError, Global};

// The EBCDIC bytes of the characters from the space to the tilde, in the order of ASCII (code page 37).
const EBCDIC: &[u8; 95] =
    b"\x40\x5A\x7F\x7B\x5B\x6C\x50\x7D\x4D\x5D\x5C\x4E\x6B\x60\x4B\x61\xF0\xF1\xF2\xF3\xF4\xF5\xF6\xF7\xF8\xF9\x7A\x5E\x4C\x7E\x6E\x6F\x7C\xC1\xC2\xC3\xC4\xC5\xC6\xC7\xC8\xC9\xD1\xD2\xD3\xD4\xD5\xD6\xD7\xD8\xD9\xE2\xE3\xE4\xE5\xE6\xE7\xE8\xE9\xBA\xE0\xBB\xB0\x6D\x79\x81\x82\x83\x84\x85\x86\x87\x88\x89\x91\x92\x93\x94\x95\x96\x97\x98\x99\xA2\xA3\xA4\xA5\xA6\xA7\xA8\xA9\xC0\x4F\xD0\xA1";

// A byte that is no character stays.
pub(crate) fn in_ebcdic(heap: Global, text: &[u8]) -> Result<Vec<u8>, AllocError> {
    let mut spelled = Vec::with_capacity(heap, text.len())?;
    for byte in text {
        let place = usize::from(byte.saturating_sub(32));
        let sign = EBCDIC.get(place).copied().unwrap_or(*byte);
        spelled.push(sign)?;
    }
    Ok(spelled)
}
