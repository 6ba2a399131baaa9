// The letter of a leaf by its kind, and its kind by its letter.
ghost use Rattle.std.specs.Prelude.{◌≡◌, ◌<◌};
ghost use Rattle.drawing.specs.TableDrawing.{letter_of};
ghost use Rattle.drawing.specs.KindLaws.{kind_by_letter};

use drawing::letters::{BITMAP, PATH, TEXT, TEXT_PATH};
use drawing::row::{BITMAP_KIND, PATH_KIND, TEXT_KIND, TEXT_PATH_KIND};

// no id
const NO_LETTER: u64 = 0;

// The letter of the leaf with this kind.
pub fn letter_of(kind: u32) -> u64
    ensures { (result ≡ letter_of kind) × (result < 128) }
{
    if kind == PATH_KIND {
        return PATH;
    }
    if kind == TEXT_KIND {
        return TEXT;
    }
    if kind == BITMAP_KIND {
        return BITMAP;
    }
    if kind == TEXT_PATH_KIND {
        return TEXT_PATH;
    }
    NO_LETTER
}

// The kind of a leaf, by its letter.
pub fn leaf_kind(letter: u64) -> u32
    ensures { result ≡ kind_by_letter letter }
{
    if letter == TEXT {
        return TEXT_KIND;
    }
    if letter == BITMAP {
        return BITMAP_KIND;
    }
    if letter == TEXT_PATH {
        return TEXT_PATH_KIND;
    }
    PATH_KIND
}
