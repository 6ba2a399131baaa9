// The ids of objects: the fault that any other char is.
ghost use Rattle.std.specs.Prelude.{◌≡◌};
ghost use Rattle.drawing.specs.Fields.{object_id};
ghost use Rattle.drawing.specs.LeafLayout.{is_leaf};

use crate::fault::unless;
use drawing::letters::{BITMAP, GROUP, PATH, TEXT, TEXT_PATH};
use drawing::limits::V1_5;
use drawing::numbers::{BAD_CHAR, TOO_DEEP};

// a leaf's I P T, from 1.5 on X, and a group's G where one may nest deeper
pub fn object_fault(deeper: bool, version: u32, letter: u64) -> u32
    ensures { result ≡ (object_id (is_leaf version) deeper).fault letter }
{
    match letter {
        BITMAP => 0,
        PATH => 0,
        TEXT => 0,
        TEXT_PATH => unless(V1_5 <= version, BAD_CHAR),
        GROUP => unless(deeper, TOO_DEEP),
        _ => BAD_CHAR,
    }
}
