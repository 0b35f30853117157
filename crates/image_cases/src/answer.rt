// What open answers, in the words of the table.
ghost use Rattle.std.specs.Prelude.{◌≡◌, IfOk, string_bytes};
ghost use Rattle.image_cases.specs.Answering.{answer_to_image};

use code::Code;
use image::Image;
use library::{Reader, count_strings};
use std::alloc::{AllocError, Global};

// `granted:PROGRAMS:STRINGS`, or the refusal's number.
pub fn answer<C: Code>(heap: Global, code: &C, bytes: &[u8]) -> Result<String, AllocError>
    ensures { IfOk result (λ text. string_bytes text ≡ answer_to_image C.meaning bytes.now) }
{
    match Image::open(code, bytes) {
        Ok(image) => {
            let programs = image.programs();
            let strings = count_strings(&image);
            format!(in heap; "granted:{programs}:{strings}")
        }
        Err(refusal) => {
            let number = refusal.number();
            format!(in heap; "{number}")
        }
    }
}
