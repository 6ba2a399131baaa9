// The segments of a path: a letter, and points. Where a segment is there whole these are a group, of which only the letter and a joined start can be at fault.
ghost use Rattle.std.specs.Prelude.{◌≡◌, true, false, ◌+◌, ◌*◌, ◌^◌, ◌<◌, ◌≤◌, length};
ghost use Rattle.std.proofs.Math.Option.{none};
ghost use Rattle.drawing.specs.Limits.{length_limit};
ghost use Rattle.ways.specs.Way.{source_units, value_at};
ghost use Rattle.ways.specs.Segments.{segments_of, segment_then, spelled, end_before, before, Follows, Stands, Joins, MovedSegment, Ended};
ghost use Rattle.layout.specs.Lays.{Begins, Lays};

use drawing::letters::CURVE;
use layout::each::{Group, each};
use layout::group::{keep, keep_points};
use layout::letter::is_straight;
use ways::way::Way;
use ways::{Pass, REFUSED};

// A letter and so many points. Into no memory they are one step.
fn keep_segment<W: Way>(
    src: &[W::Unit],
    dst: &mut [W::Kept],
    at: usize,
    to: usize,
    points: usize,
) -> Pass
    requires begins { Begins (W.units src.now) at to }
    requires way_in_bounds { (at + source_units W.way 2 + 2 * points * source_units W.way 8 ≤ length (W.units src.now)) × (value_at W.way 2 (W.units src.now) at < 256 ^ 2) }
    ensures { MovedSegment W.way points (W.units src.now) (W.kept dst.old) (W.kept dst.new) at to result }
{
    if dst.len() == 0 {
        return W::ahead(at, to, 2 + 16 * points, 1 + 4 * points);
    }
    let told = keep::<W>(&*src, dst, at, to, 2);
    keep_points::<W>(&*src, dst, told.at, told.to, points)
}

// A curve without a start of its own, of which the letter is there.
fn curve<W: Way>(src: &[W::Unit], dst: &mut [W::Kept], at: usize, to: usize) -> Pass
    requires begins { Begins (W.units src.now) at to }
    requires at_value { value_at W.way 2 (W.units src.now) at ≡ 66 }
    ensures { Ended (spelled 0) W.way (W.units src.now) (W.kept dst.old) (W.kept dst.new) at to result }
{
    if W::there(&*src, at, 50, 13) {
        return keep_segment::<W>(&*src, dst, at, to, 3);
    }
    each::<W>(&*src, dst, at, to, Group::Segment(0))
}

// A segment without a start of its own, as from 1.3 on.
fn segment<W: Way>(src: &[W::Unit], dst: &mut [W::Kept], at: usize, to: usize) -> Pass
    requires { Begins (W.units src.now) at to }
    ensures { Ended (spelled 0) W.way (W.units src.now) (W.kept dst.old) (W.kept dst.new) at to result }
{
    if W::there(&*src, at, 18, 5) {
        let letter = W::get(&*src, at, 2);
        if is_straight(letter) {
            return keep_segment::<W>(&*src, dst, at, to, 1);
        }
        if letter == CURVE {
            return curve::<W>(&*src, dst, at, to);
        }
    }
    each::<W>(&*src, dst, at, to, Group::Segment(0))
}

pub fn segments<W: Way>(
    src: &[W::Unit],
    dst: &mut [W::Kept],
    at: usize,
    to: usize,
    count: u64,
) -> Pass
    requires { Begins (W.units src.now) at to }
    ensures { Lays W.way (segments_of false count none) (W.units src.now) (W.kept dst.old) (W.kept dst.new) at to result }
{
    let mut behind = Pass { at, to };
    for _ in 0..count {
        if REFUSED <= behind.at {
            return behind;
        }
        behind = segment::<W>(&*src, dst, behind.at, behind.to);
    }
    behind
}

// The start behind the letter at this place has the very bits of the end before the letter.
fn follows<W: Way>(src: &[W::Unit], at: usize) -> bool
    requires { (2 * source_units W.way 8 ≤ at) × (at + source_units W.way 2 + 2 * source_units W.way 8 ≤ length (W.units src.now)) × (length (W.units src.now) ≤ length_limit) }
    ensures { result ≡ true → Stands W.way (W.units src.now) (at + source_units W.way 2) (end_before W.way (W.units src.now) at) }
{
    let units = W::source_units(8);
    let start = W::past(at, 2, 1);
    if W::get(&*src, start, 8) != W::get(&*src, at - 2 * units, 8) {
        return false;
    }
    W::get(&*src, start + units, 8) == W::get(&*src, at - units, 8)
}

// The first start is free.
fn joins<W: Way>(src: &[W::Unit], at: usize, first: bool) -> bool
    requires follows { Follows W.way first (W.units src.now) at }
    requires way_in_bounds { (at + source_units W.way 2 + 2 * source_units W.way 8 ≤ length (W.units src.now)) × (length (W.units src.now) ≤ length_limit) }
    ensures { result ≡ true → Joins W.way first (W.units src.now) at }
{
    if first {
        return true;
    }
    follows::<W>(&*src, at)
}

fn each_with_start<W: Way>(
    src: &[W::Unit],
    dst: &mut [W::Kept],
    at: usize,
    to: usize,
    first: bool,
) -> Pass
    requires begins { Begins (W.units src.now) at to }
    requires follows { Follows W.way first (W.units src.now) at }
    ensures { Ended (segment_then true (before W.way first (W.units src.now) at)) W.way (W.units src.now) (W.kept dst.old) (W.kept dst.new) at to result }
{
    if first {
        return each::<W>(&*src, dst, at, to, Group::Segment(2));
    }
    each::<W>(&*src, dst, at, to, Group::JoinedSegment)
}

// A segment whose start is there, free or joined.
fn whole_segment<W: Way>(
    src: &[W::Unit],
    dst: &mut [W::Kept],
    at: usize,
    to: usize,
    first: bool,
) -> Pass
    requires begins { Begins (W.units src.now) at to }
    requires follows { Follows W.way first (W.units src.now) at }
    requires joins { Joins W.way first (W.units src.now) at }
    requires way_in_bounds { at + source_units W.way 2 + 4 * source_units W.way 8 ≤ length (W.units src.now) }
    ensures { Ended (segment_then true (before W.way first (W.units src.now) at)) W.way (W.units src.now) (W.kept dst.old) (W.kept dst.new) at to result }
{
    let letter = W::get(&*src, at, 2);
    if is_straight(letter) {
        return keep_segment::<W>(&*src, dst, at, to, 2);
    }
    if letter == CURVE {
        if W::there(&*src, at, 66, 17) {
            return keep_segment::<W>(&*src, dst, at, to, 4);
        }
    }
    each_with_start::<W>(&*src, dst, at, to, first)
}

// A segment with a start of its own, as below 1.3.
fn joined_segment<W: Way>(
    src: &[W::Unit],
    dst: &mut [W::Kept],
    at: usize,
    to: usize,
    first: bool,
) -> Pass
    requires begins { Begins (W.units src.now) at to }
    requires follows { Follows W.way first (W.units src.now) at }
    ensures { Ended (segment_then true (before W.way first (W.units src.now) at)) W.way (W.units src.now) (W.kept dst.old) (W.kept dst.new) at to result }
{
    if W::there(&*src, at, 34, 9) {
        if joins::<W>(&*src, at, first) {
            return whole_segment::<W>(&*src, dst, at, to, first);
        }
    }
    each_with_start::<W>(&*src, dst, at, to, first)
}

// The end before is not carried: it is the two doubles before the letter.
pub fn joined_segments<W: Way>(
    src: &[W::Unit],
    dst: &mut [W::Kept],
    at: usize,
    to: usize,
    count: u64,
) -> Pass
    requires { Begins (W.units src.now) at to }
    ensures { Lays W.way (segments_of true count none) (W.units src.now) (W.kept dst.old) (W.kept dst.new) at to result }
{
    let mut behind = Pass { at, to };
    let mut first = true;
    for _ in 0..count {
        if REFUSED <= behind.at {
            return behind;
        }
        behind = joined_segment::<W>(&*src, dst, behind.at, behind.to, first);
        first = false;
    }
    behind
}
