// Whether an image and a locked shelf mean the same library.
ghost use Rattle.std.specs.Prelude.{◌≡◌, Decides};
ghost use Rattle.image.specs.Granting.{meaning_of as image_meaning};
ghost use Rattle.library.specs.Locked.{lock_meaning};
ghost use Rattle.shelf.specs.Shelved.{meaning_of as shelf_meaning};
ghost use Rattle.exchange.specs.Agreement.{ImageAndLockedShelfAgree};

use crate::compare::same_programs;
use image::Image;
use library::Lock;
use shelf::Shelf;

// Both have no space and are locked, so that the programs decide.
pub fn same_library(image: &Image, shelf: &Lock<Shelf>) -> bool
    ensures same { Decides result (image_meaning image.now ≡ lock_meaning shelf_meaning shelf.now) }
    ensures law { ImageAndLockedShelfAgree }
{
    same_programs(image, shelf)
}
