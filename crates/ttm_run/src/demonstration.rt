// The demonstration: an image, and a locked shelf of the same programs.
ghost use Rattle.std.specs.Prelude.{◌≡◌, IfOk, string_bytes, OnOk};
ghost use Rattle.exchange.specs.Stopping.{first_refusal as refusal_of_first};
ghost use Rattle.image.specs.Granting.{meaning_of as image_meaning};
ghost use Rattle.image.specs.Opening.{programs_of};
ghost use Rattle.library.specs.Locked.{locked_library, lock_meaning};
ghost use Rattle.shelf.specs.Shelved.{meaning_of as shelf_meaning, empty_library};
ghost use Rattle.ttm_run.specs.Filling.{filling};
ghost use Rattle.showing.specs.Failing.{FailsBy};
ghost use Rattle.ttm_run.specs.Demonstration.{draft, ShownBoth, shown_demonstration, demonstration_refusal as refusal_of_demonstration, verdict as verdict_text};

use crate::filling::fill;
use code::Ascii;
use exchange::same_library;
use image::Image;
use library::{Lock, ProgramName, Reader, StringView, StringViews};
use listing::Listing;
use shelf::Shelf;
use showing::Failure;
use std::alloc::{AllocError, Global};

// The programs of a library on a shelf, which is then locked. A program DRAFT is stored after the first two, and deleted again.
fn shelve<R: Reader>(heap: Global, from: &R) -> Result<Lock<Shelf>, Failure>
    ensures same { IfOk result (λ lock. lock_meaning shelf_meaning lock ≡ locked_library (R.Reader.meaning from.now).programs) }
    ensures refused { FailsBy result (refusal_of_first empty_library (filling 2 draft (R.Reader.meaning from.now).programs)) }
{
    let mut shelf = Shelf::new(heap)?;
    let name = ProgramName::new(b"DRAFT").unwrap();
    let strings = StringViews {
        views: &[StringView {
            name: b"DRAFT",
            body: b"to be deleted",
        }],
    };
    fill(&mut shelf, from, 2, &name, &strings)?;
    Ok(Lock { inner: shelf })
}

fn verdict(same: bool) -> &'static str
    ensures { result.now ≡ verdict_text same }
{
    if same {
        "image and locked shelf mean the same library: yes\n"
    } else {
        "image and locked shelf mean the same library: no\n"
    }
}

// Adds both listings, and whether they mean the same library.
fn push_both(out: &mut String, image: &Image, shelf: &Lock<Shelf>) -> Result<(), AllocError>
    ensures { OnOk result (ShownBoth (string_bytes out.old) (image_meaning image.now) (lock_meaning shelf_meaning shelf.now) (string_bytes out.new)) }
{
    let listed = Listing {
        code: &Ascii,
        library: image,
    };
    let shelved = Listing {
        code: &Ascii,
        library: shelf,
    };
    let verdict = verdict(same_library(image, shelf));
    write!(
        out,
        "{listed}the same programs on a shelf, with DRAFT stored among them and deleted again, then locked:\n{shelved}{verdict}"
    )
}

// The text of the demonstration with an image in ASCII.
pub fn demonstrate(heap: Global, image: &[u8]) -> Result<String, Failure>
    ensures shown { IfOk result (λ s. string_bytes s ≡ shown_demonstration (programs_of image.now)) }
    ensures refused { FailsBy result (refusal_of_demonstration image.now) }
{
    let opened = Image::open(&Ascii, image)?;
    let shelf = shelve(heap, &opened)?;
    let mut text = String::new(heap);
    push_both(&mut text, &opened, &shelf)?;
    Ok(text)
}
