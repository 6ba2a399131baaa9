// What follows the id of a leaf.
ghost use Rattle.std.specs.Prelude.{◌≡◌, ◌&&◌, eqb, leb};
ghost use Rattle.format.specs.Alternative.{chosen};
ghost use Rattle.drawing.specs.LeafLayout.{path_case, other_cases, leaf_body};
ghost use Rattle.layout.specs.Lays.{Begins, Lays};

use crate::bitmap::bitmap;
use crate::end::object_end;
use crate::path::path;
use crate::text::text;
use crate::text_path::text_path;
use drawing::letters::{BITMAP, TEXT, TEXT_PATH};
use drawing::limits::V1_5;
use ways::Pass;
use ways::way::Way;

// from 1.5 on
fn is_text_path(version: u32, letter: u64) -> bool
    ensures { result ≡ (leb 5 version && eqb letter 88) }
{
    if version < V1_5 {
        return false;
    }
    letter == TEXT_PATH
}

pub fn leaf_parts<W: Way>(
    src: &[W::Unit],
    dst: &mut [W::Kept],
    at: usize,
    to: usize,
    version: u32,
    letter: u64,
) -> Pass
    requires { Begins (W.units src.now) at to }
    ensures { Lays W.way (chosen (path_case version) (other_cases version) letter) (W.units src.now) (W.kept dst.old) (W.kept dst.new) at to result }
{
    if letter == TEXT {
        return text::<W>(&*src, dst, at, to, version);
    }
    if letter == BITMAP {
        return bitmap::<W>(&*src, dst, at, to);
    }
    if is_text_path(version, letter) {
        return text_path::<W>(&*src, dst, at, to, version);
    }
    path::<W>(&*src, dst, at, to, version)
}

pub fn leaf_body<W: Way>(
    src: &[W::Unit],
    dst: &mut [W::Kept],
    at: usize,
    to: usize,
    version: u32,
    letter: u64,
) -> Pass
    requires { Begins (W.units src.now) at to }
    ensures { Lays W.way (leaf_body version letter) (W.units src.now) (W.kept dst.old) (W.kept dst.new) at to result }
{
    let parts = leaf_parts::<W>(&*src, dst, at, to, version, letter);
    object_end::<W>(&*src, dst, parts.at, parts.to, version)
}
