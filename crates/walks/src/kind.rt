// The kinds of rows.
ghost use Rattle.std.specs.Prelude.{◌≡◌};
ghost use Rattle.drawing.specs.LeafLayout.{is_leaf};
ghost use Rattle.drawing.specs.TableDrawing.{letter_of};

use drawing::limits::V1_5;
use drawing::row::{BITMAP_KIND, PATH_KIND, TEXT_PATH_KIND};

// The kind is that of a leaf in this version.
pub fn is_leaf(version: u32, kind: u32) -> bool
    ensures { result ≡ is_leaf version (letter_of kind) }
{
    if kind == TEXT_PATH_KIND {
        return V1_5 <= version;
    }
    if kind < PATH_KIND {
        return false;
    }
    kind <= BITMAP_KIND
}
