// Groups of fields one by one, where a group is not as it usually is: this finds the field at fault. It is one function for all groups, so that the code
// of a group has one call and no more for what seldom happens.
ghost use Rattle.std.specs.Prelude.{◌+◌, ◌*◌, ◌^◌, ◌<◌, ◌≤◌, length, true, ◌≡◌};
ghost use Rattle.drawing.specs.Fields as F;
ghost use Rattle.drawing.specs.Path.{joined_point};
ghost use Rattle.format.specs.Layout.{field, ◌&◌, repeat};
ghost use Rattle.layout.specs.Groups.{Stands, EachOf};
ghost use Rattle.layout.specs.Lays.{Begins, Lays};
ghost use Rattle.ways.specs.Moves.{Led};
ghost use Rattle.ways.specs.Segments.{doubles_behind, segment_then, spelled, end_before, Ended};
ghost use Rattle.ways.specs.TextLaws as X;
ghost use Rattle.ways.specs.Way.{source_units, value_at};
ghost use Rattle.std.proofs.Math.Option.{some};

use crate::field::{byte, component, font_size, hue, joined};
use crate::group::keep;
use crate::letter::{is_straight, segment_letter};
use crate::run::run;
use drawing::limits::{LAST_SERIES, LAST_SHAPE};
use ways::Pass;
use ways::way::Way;

#[derive(Clone, Copy)]
pub enum Group {
    // the letter of a plain paint, and so many components
    Color(usize),
    // its letter, a hue and three components
    Hsb,
    // a text's shape, series, size and transformation
    Face,
    // a segment's letter, so many doubles of a free start, and its points
    Segment(u64),
    // its letter, a start that joins the end before, and its points
    JoinedSegment,
}

// One by one, which finds the one at fault.
fn each_component<W: Way>(
    src: &[W::Unit],
    dst: &mut [W::Kept],
    at: usize,
    to: usize,
    count: usize,
) -> Pass
    requires { Begins (W.units src.now) at to }
    ensures { Lays W.way (repeat count (field F.component)) (W.units src.now) (W.kept dst.old) (W.kept dst.new) at to result }
{
    let mut behind = Pass { at, to };
    for _ in 0..count {
        let taken = component::<W>(&*src, dst, behind.at, behind.to);
        behind = taken.pass;
    }
    behind
}

fn each_of_color<W: Way>(
    src: &[W::Unit],
    dst: &mut [W::Kept],
    at: usize,
    to: usize,
    count: usize,
) -> Pass
    requires begins { Begins (W.units src.now) at to }
    requires way_in_bounds { (at + source_units W.way 2 ≤ length (W.units src.now)) × (value_at W.way 2 (W.units src.now) at < 256 ^ 2) }
    ensures { Led W.way (repeat count (field F.component)).format (W.units src.now) (W.kept dst.old) (W.kept dst.new) at to result }
{
    let told = keep::<W>(&*src, dst, at, to, 2);
    each_component::<W>(&*src, dst, told.at, told.to, count)
}

fn each_of_hsb<W: Way>(src: &[W::Unit], dst: &mut [W::Kept], at: usize, to: usize) -> Pass
    requires begins { Begins (W.units src.now) at to }
    requires way_in_bounds { (at + source_units W.way 2 ≤ length (W.units src.now)) × (value_at W.way 2 (W.units src.now) at < 256 ^ 2) }
    ensures { Led W.way (field F.hue & repeat 3 (field F.component)).format (W.units src.now) (W.kept dst.old) (W.kept dst.new) at to result }
{
    let told = keep::<W>(&*src, dst, at, to, 2);
    let taken = hue::<W>(&*src, dst, told.at, told.to);
    let behind = taken.pass;
    each_component::<W>(&*src, dst, behind.at, behind.to, 3)
}

// One by one, which finds the one at fault.
fn each_of_face<W: Way>(src: &[W::Unit], dst: &mut [W::Kept], at: usize, to: usize) -> Pass
    requires { Begins (W.units src.now) at to }
    ensures { Lays W.way X.face (W.units src.now) (W.kept dst.old) (W.kept dst.new) at to result }
{
    let shape = byte::<W>(&*src, dst, at, to, 0, LAST_SHAPE);
    let shaped = shape.pass;
    let series = byte::<W>(&*src, dst, shaped.at, shaped.to, 0, LAST_SERIES);
    let behind = series.pass;
    let size = font_size::<W>(&*src, dst, behind.at, behind.to);
    let sized = size.pass;
    run::<W>(&*src, dst, sized.at, sized.to, 8, 6)
}

fn doubles_behind(letter: u64) -> u64
    ensures { (result ≡ doubles_behind letter) × (result ≤ 6) }
{
    if is_straight(letter) {
        return 2;
    }
    6
}

// A letter and its points one by one, after so many doubles of a start that is free.
fn each_of_segment<W: Way>(
    src: &[W::Unit],
    dst: &mut [W::Kept],
    at: usize,
    to: usize,
    start: u64,
) -> Pass
    requires begins { Begins (W.units src.now) at to }
    requires start_bound { start ≤ 2 }
    ensures { Ended (spelled start) W.way (W.units src.now) (W.kept dst.old) (W.kept dst.new) at to result }
{
    let told = segment_letter::<W>(&*src, dst, at, to);
    let letter = told.value;
    let behind = told.pass;
    let doubles = start + doubles_behind(letter);
    run::<W>(&*src, dst, behind.at, behind.to, 8, doubles)
}

// A start with the very bits of the end before the letter, which stands where the two join.
fn joined_start<W: Way>(
    src: &[W::Unit],
    dst: &mut [W::Kept],
    at: usize,
    to: usize,
    joint: usize,
) -> Pass
    requires begins { Begins (W.units src.now) at to }
    requires way_bound { (2 * source_units W.way 8 ≤ joint) × (joint ≤ length (W.units src.now)) }
    ensures { Lays W.way (joined_point (some (end_before W.way (W.units src.now) joint))) (W.units src.now) (W.kept dst.old) (W.kept dst.new) at to result }
{
    let units = W::source_units(8);
    let x = W::get(&*src, joint - 2 * units, 8);
    let y = W::get(&*src, joint - units, 8);
    let across = joined::<W>(&*src, dst, at, to, x);
    let behind = across.pass;
    let up = joined::<W>(&*src, dst, behind.at, behind.to, y);
    up.pass
}

fn each_of_joined<W: Way>(src: &[W::Unit], dst: &mut [W::Kept], at: usize, to: usize) -> Pass
    requires begins { Begins (W.units src.now) at to }
    requires way_bound { (2 * source_units W.way 8 ≤ at) × (at ≤ length (W.units src.now)) }
    ensures { Ended (segment_then true (some (end_before W.way (W.units src.now) at))) W.way (W.units src.now) (W.kept dst.old) (W.kept dst.new) at to result }
{
    let told = segment_letter::<W>(&*src, dst, at, to);
    let letter = told.value;
    let behind = told.pass;
    let started = joined_start::<W>(&*src, dst, behind.at, behind.to, at);
    let doubles = doubles_behind(letter);
    run::<W>(&*src, dst, started.at, started.to, 8, doubles)
}

pub fn each<W: Way>(
    src: &[W::Unit],
    dst: &mut [W::Kept],
    at: usize,
    to: usize,
    group: Group,
) -> Pass
    requires begins { Begins (W.units src.now) at to }
    requires stands { Stands W.way group (W.units src.now) at }
    ensures { EachOf W.way group (W.units src.now) (W.kept dst.old) (W.kept dst.new) at to result }
{
    match group {
        Group::Color(count) => each_of_color::<W>(&*src, dst, at, to, count),
        Group::Hsb => each_of_hsb::<W>(&*src, dst, at, to),
        Group::Face => each_of_face::<W>(&*src, dst, at, to),
        Group::Segment(start) => each_of_segment::<W>(&*src, dst, at, to, start),
        Group::JoinedSegment => each_of_joined::<W>(&*src, dst, at, to),
    }
}
