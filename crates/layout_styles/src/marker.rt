// Markers, and the chains that composite markers make.
ghost use Rattle.std.specs.Prelude.{◌≡◌};
ghost use Rattle.drawing.specs.Marker.{last_marker, arrow, marker};
ghost use Rattle.drawing.specs.MarkerChain as M;
ghost use Rattle.ways.specs.MarkerLaws.{flagged_float, marker_head, overlay};
ghost use Rattle.layout.specs.Lays.{Begins, Lays};

use crate::paint::plain_paint;
use drawing::limits::{
    FIRST_REPEAT, LAST_ARROW, LAST_MARKER, LAST_NEW_MARKER, LAST_REPEAT, MARKER_LIMIT, V1_1, V1_4,
};
use layout::field::{byte, flag, float, marker_id};
use layout::group::keep;
use ways::Pass;
use ways::way::Way;

// A flag, and a float where the flag has this value.
fn flagged_float<W: Way>(
    src: &[W::Unit],
    dst: &mut [W::Kept],
    at: usize,
    to: usize,
    value: u64,
) -> Pass
    requires { Begins (W.units src.now) at to }
    ensures { Lays W.way (flagged_float value) (W.units src.now) (W.kept dst.old) (W.kept dst.new) at to result }
{
    let told = flag::<W>(&*src, dst, at, to);
    let behind = told.pass;
    if told.value == value {
        let taken = float::<W>(&*src, dst, behind.at, behind.to);
        return taken.pass;
    }
    behind
}

// The overlay flag, and from 1.4 on the offsets of a marker that is none.
fn overlay<W: Way>(src: &[W::Unit], dst: &mut [W::Kept], at: usize, to: usize, version: u32) -> Pass
    requires { Begins (W.units src.now) at to }
    ensures { Lays W.way (overlay version) (W.units src.now) (W.kept dst.old) (W.kept dst.new) at to result }
{
    let told = flag::<W>(&*src, dst, at, to);
    let behind = told.pass;
    if version < V1_4 {
        return behind;
    }
    if told.value != 0 {
        return behind;
    }
    let offset = flagged_float::<W>(&*src, dst, behind.at, behind.to, 1);
    flagged_float::<W>(&*src, dst, offset.at, offset.to, 1)
}

// Size, repeats and whether it is reversed.
fn marker_head<W: Way>(src: &[W::Unit], dst: &mut [W::Kept], at: usize, to: usize) -> Pass
    requires { Begins (W.units src.now) at to }
    ensures { Lays W.way marker_head (W.units src.now) (W.kept dst.old) (W.kept dst.new) at to result }
{
    let size = float::<W>(&*src, dst, at, to);
    let sized = size.pass;
    let repeats = byte::<W>(&*src, dst, sized.at, sized.to, FIRST_REPEAT, LAST_REPEAT);
    let repeated = repeats.pass;
    let reversed = flag::<W>(&*src, dst, repeated.at, repeated.to);
    reversed.pass
}

// What follows a marker's id from 1.1 on; it is the same for every id.
fn marker<W: Way>(src: &[W::Unit], dst: &mut [W::Kept], at: usize, to: usize, version: u32) -> Pass
    requires { Begins (W.units src.now) at to }
    ensures { Lays W.way (marker version 0) (W.units src.now) (W.kept dst.old) (W.kept dst.new) at to result }
{
    let turned = marker_head::<W>(&*src, dst, at, to);
    let oriented = flagged_float::<W>(&*src, dst, turned.at, turned.to, 0);
    let painted = plain_paint::<W>(&*src, dst, oriented.at, oriented.to, version);
    overlay::<W>(&*src, dst, painted.at, painted.to, version)
}

// The same in 1.0.
fn arrow<W: Way>(src: &[W::Unit], dst: &mut [W::Kept], at: usize, to: usize) -> Pass
    requires { Begins (W.units src.now) at to }
    ensures { Lays W.way (arrow 0) (W.units src.now) (W.kept dst.old) (W.kept dst.new) at to result }
{
    let size = float::<W>(&*src, dst, at, to);
    let sized = size.pass;
    let doubled = flag::<W>(&*src, dst, sized.at, sized.to);
    let behind = doubled.pass;
    let reversed = flag::<W>(&*src, dst, behind.at, behind.to);
    reversed.pass
}

// The highest id of a marker.
fn last_marker(version: u32) -> u32
    ensures { result ≡ last_marker version }
{
    if V1_4 <= version {
        return LAST_NEW_MARKER;
    }
    if V1_1 <= version {
        return LAST_MARKER;
    }
    LAST_ARROW
}

// Most lines have no markers.
pub fn markers<W: Way>(
    src: &[W::Unit],
    dst: &mut [W::Kept],
    at: usize,
    to: usize,
    version: u32,
) -> Pass
    requires { Begins (W.units src.now) at to }
    ensures { Lays W.way (M.markers version) (W.units src.now) (W.kept dst.old) (W.kept dst.new) at to result }
{
    if W::there(&*src, at, 1, 1) {
        if W::get(&*src, at, 1) == 0 {
            return keep::<W>(&*src, dst, at, to, 1);
        }
    }
    chain::<W>(&*src, dst, at, to, version)
}

// A marker's data end with another marker, from 1.1 on; an id of 0 ends the chain, and so does the limit.
pub fn chain<W: Way>(
    src: &[W::Unit],
    dst: &mut [W::Kept],
    at: usize,
    to: usize,
    version: u32,
) -> Pass
    requires { Begins (W.units src.now) at to }
    ensures { Lays W.way (M.markers version) (W.units src.now) (W.kept dst.old) (W.kept dst.new) at to result }
{
    let high = last_marker(version);
    let mut behind = Pass { at, to };
    for _ in 0..MARKER_LIMIT {
        let told = marker_id::<W>(&*src, dst, behind.at, behind.to, high, true);
        let id = told.value;
        let after = told.pass;
        if id == 0 {
            return after;
        }
        if version < V1_1 {
            return arrow::<W>(&*src, dst, after.at, after.to);
        }
        behind = marker::<W>(&*src, dst, after.at, after.to, version);
    }
    let last = marker_id::<W>(&*src, dst, behind.at, behind.to, high, false);
    last.pass
}
