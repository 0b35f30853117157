// A host's use of an image: its own buffer is opened as a library, asked for a program, let go, and then cleared for the next one.
ghost use Rattle.std.specs.Prelude.{◌≡◌, length, replicate, IfOk};
ghost use Rattle.std.specs.Result.{result_err};
ghost use Rattle.library.specs.Meaning.{place};
ghost use Rattle.image.specs.Questions.{image_refusal as refusal_of_image};
ghost use Rattle.image.specs.Opening.{programs_of};
ghost use Rattle.refusal.specs.Outcome.{kept_or};

use code::Code;
use image::Image;
use library::find_program;
use refusal::Refusal;

// Where the program of that name stands in the image that the buffer holds. Refused, the buffer is as before.
pub fn find_and_clear<C: Code>(
    code: &C,
    buffer: &mut [u8],
    name: &[u8],
) -> Result<Option<usize>, Refusal>
    ensures refusal { result_err result ≡ refusal_of_image C.meaning buffer.old }
    ensures found { IfOk result (λ k. k ≡ place name.now (programs_of buffer.old)) }
    ensures cleared { buffer.new ≡ kept_or (result_err result) (replicate (length buffer.old) 0) buffer.old }
{
    let image = Image::open(code, buffer)?;
    let found = find_program(&image, name);
    buffer.fill(0);
    Ok(found)
}
