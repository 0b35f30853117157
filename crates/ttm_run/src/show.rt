// The text of an image.
ghost use Rattle.std.specs.Prelude.{◌≡◌, IfOk, string_bytes};
ghost use Rattle.image.specs.Questions.{image_refusal as refusal_of_image};
ghost use Rattle.image.specs.Opening.{programs_of, image_library};
ghost use Rattle.listing.specs.Listing.{listing};
ghost use Rattle.showing.specs.Failing.{refused_part};
ghost use Rattle.ttm_run.specs.Showing.{shown_image, refused_image};

use code::{Ascii, Code, Ebcdic};
use image::Image;
use listing::{Glyphs, render};
use showing::Failure;
use std::alloc::Global;

// Opens the image and lists what is granted.
fn show_image<C: Glyphs>(heap: Global, code: &C, image: &[u8]) -> Result<String, Failure>
    ensures shown { IfOk result (λ s. string_bytes s ≡ listing C.Code.meaning C.Glyphs.title C.Glyphs.glyph (image_library (programs_of image.now))) }
    ensures refused { refused_part result ≡ refusal_of_image C.Code.meaning image.now }
{
    let opened = Image::open(code, image)?;
    let text = render(heap, code, &opened)?;
    Ok(text)
}

// An image names its code by its first byte; one that names no code that is known is left to ASCII to refuse.
pub fn text_of(heap: Global, image: &[u8]) -> Result<String, Failure>
    ensures shown { IfOk result (λ s. string_bytes s ≡ shown_image image.now) }
    ensures refused { refused_part result ≡ refused_image image.now }
{
    match image {
        [number, ..] if *number == Ebcdic.number() => show_image(heap, &Ebcdic, image),
        _ => show_image(heap, &Ascii, image),
    }
}
