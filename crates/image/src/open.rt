// Opening an image.
ghost use Rattle.std.specs.Prelude.{◌≡◌, [], IfOk};
ghost use Rattle.std.specs.Result.{result_err};
ghost use Rattle.library.specs.Meaning.{Library};
ghost use Rattle.image.specs.Questions.{image_refusal as refusal_of_image};
ghost use Rattle.image.specs.Opening.{programs_of, image_library, Opened, LayoutIsUnique};
ghost use Rattle.image.specs.Granting.{programs_held, meaning_of, opened_or};

use crate::contents::Contents;
use crate::granted::Image;
use code::Code;
use refusal::Refusal;

impl<'a> Image<'a> {
    // An image of no programs.
    pub fn empty() -> Image<'a>
        ensures { meaning_of result ≡ image_library [] }
    {
        Image {
            contents: Contents {
                entries: &[],
                texts: &[],
            },
        }
    }

    // The opened image of these bytes, or the refusal of the first question that says no.
    pub fn open<C: Code>(code: &C, image: &'a [u8]) -> Result<Image<'a>, Refusal>
        ensures refusal { result_err result ≡ refusal_of_image C.meaning image.now }
        ensures opened { (before : Library) → Opened C.meaning image.now (result_err result) before (opened_or before result) }
        ensures unique { LayoutIsUnique }
    {
        Image::admit(code, image)
    }

    // The same, by the first refusal and the programs alone: what open promises follows from these.
    fn admit<C: Code>(code: &C, image: &'a [u8]) -> Result<Image<'a>, Refusal>
        ensures refusal { result_err result ≡ refusal_of_image C.meaning image.now }
        ensures held { IfOk result (λ opened. programs_held opened ≡ programs_of image.now) }
    {
        let contents = Contents::cut(code, image)?;
        contents.check(code)?;
        Ok(Image { contents })
    }
}
