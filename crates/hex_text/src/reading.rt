// Bytes from text in hex.
ghost use Rattle.std.specs.Prelude.{◌≡◌, IfOk, vec_items};
ghost use Rattle.std.specs.Option.{option_map};
ghost use Rattle.hex_text.specs.Hex.{digit_value, two_digits, unhexed, ReadsInHex};

use std::alloc::{AllocError, Global};

// The value of a digit.
fn digit(c: u8) -> Option<u8>
    ensures { result ≡ digit_value c }
{
    match c {
        b'0'..=b'9' => Some(c - b'0'),
        b'a'..=b'f' => Some(c - b'a' + 10),
        _ => None,
    }
}

// The byte that two digits are.
fn byte_of(high: u8, low: u8) -> Option<u8>
    ensures { result ≡ two_digits (digit_value high) (digit_value low) }
{
    Some(digit(high)? * 16 + digit(low)?)
}

// The bytes of a text in hex; `None` where it is no such text.
pub fn unhex(heap: Global, text: &[u8]) -> Result<Option<Vec<u8>>, AllocError>
    ensures bytes { IfOk result (λ o. option_map vec_items o ≡ unhexed text.now) }
    ensures law { ReadsInHex }
{
    let (pairs, []) = text.as_chunks::<2>() else {
        return Ok(None);
    };
    let mut bytes = Vec::new(heap);
    for [high, low] in pairs {
        let Some(byte) = byte_of(*high, *low) else {
            return Ok(None);
        };
        bytes.push(byte)?;
    }
    Ok(Some(bytes))
}
