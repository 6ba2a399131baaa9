// Paints: plain ones, and gradients of two plain ones. The letter and the components of a colour are a group.
ghost use Rattle.std.specs.Prelude.{◌≡◌, true, ◌&&◌, ◌+◌, ◌*◌, ◌^◌, ◌<◌, ◌≤◌, [], ◌∷◌, eqb, leb, length};
ghost use Rattle.format.specs.Kind.{Allowed};
ghost use Rattle.format.specs.Layout.{field, repeat, ◌&◌};
ghost use Rattle.drawing.specs.Fields as F;
ghost use Rattle.drawing.specs.Limits.{length_limit};
ghost use Rattle.drawing.specs.Paint as P;
ghost use Rattle.ways.specs.Way.{source_units, value_at};
ghost use Rattle.ways.specs.Moves.{AllAllowed, Led};
ghost use Rattle.ways.specs.NowhereLaws.{Moves};
ghost use Rattle.ways.specs.PaintLaws.{PlainLed, gradient_parts};
ghost use Rattle.layout.specs.Lays.{Begins, Lays};

use drawing::letters::{CMYK, GREY, HSB, LINEAR, RADIAL, RGB, TRANSPARENT};
use drawing::limits::{LAST_DIRECTION, LAST_LOCATION, V1_3, V1_4};
use drawing::numbers::{BAD_CHAR, CUT};
use fields::floats::{is_component, is_hue};
use layout::each::{Group, each};
use layout::field::{component, hue, integer_to, refused};
use layout::group::{keep, keep_words};
use ways::Pass;
use ways::way::Way;

// All of these components are in their range.
fn all_components<W: Way>(src: &[W::Unit], from: usize, count: usize) -> bool
    requires { (from + count * source_units W.way 4 ≤ length (W.units src.now)) × (length (W.units src.now) ≤ length_limit) }
    ensures { result ≡ true → AllAllowed W.way F.component 4 count (W.units src.now) from }
{
    for i in 0..count {
        if !is_component(W::get(&*src, from + i * W::source_units(4), 4)) {
            return false;
        }
    }
    true
}

// A letter and so many words behind it, known to be there and allowed. Into no memory they are one step.
fn keep_color<W: Way>(
    src: &[W::Unit],
    dst: &mut [W::Kept],
    at: usize,
    to: usize,
    count: usize,
) -> Pass
    requires begins { Begins (W.units src.now) at to }
    requires way_in_bounds { (at + source_units W.way 2 + count * source_units W.way 4 ≤ length (W.units src.now)) × (value_at W.way 2 (W.units src.now) at < 256 ^ 2) }
    ensures { Moves W.way ((2, 1) ∷ (4, count) ∷ []) (W.units src.now) (W.kept dst.old) (W.kept dst.new) at to result }
{
    if dst.len() == 0 {
        return W::ahead(at, to, 2 + 4 * count, 1 + count);
    }
    let told = keep::<W>(&*src, dst, at, to, 2);
    keep_words::<W>(&*src, dst, told.at, told.to, count)
}

// A letter that is allowed, and so many components.
fn color<W: Way>(src: &[W::Unit], dst: &mut [W::Kept], at: usize, to: usize, count: usize) -> Pass
    requires begins { Begins (W.units src.now) at to }
    requires count_bound { (count ≤ 5) × (at + source_units W.way 2 ≤ length (W.units src.now)) × (value_at W.way 2 (W.units src.now) at < 256 ^ 2) }
    ensures { Led W.way (repeat count (field F.component)).format (W.units src.now) (W.kept dst.old) (W.kept dst.new) at to result }
{
    if W::there(&*src, at, 2 + 4 * count, 1 + count) {
        if all_components::<W>(&*src, W::past(at, 2, 1), count) {
            return keep_color::<W>(&*src, dst, at, to, count);
        }
    }
    each::<W>(&*src, dst, at, to, Group::Color(count))
}

// A hue and three components in their ranges, behind the letter at this place.
fn hsb_good<W: Way>(src: &[W::Unit], at: usize) -> bool
    requires { (at + source_units W.way 2 + 4 * source_units W.way 4 ≤ length (W.units src.now)) × (length (W.units src.now) ≤ length_limit) }
    ensures { result ≡ true → Allowed F.hue (value_at W.way 4 (W.units src.now) (at + source_units W.way 2)) × AllAllowed W.way F.component 4 3 (W.units src.now) (at + source_units W.way 2 + source_units W.way 4) }
{
    if is_hue(W::get(&*src, W::past(at, 2, 1), 4)) {
        return all_components::<W>(&*src, W::past(at, 6, 2), 3);
    }
    false
}

// The first component is a hue.
fn hsb<W: Way>(src: &[W::Unit], dst: &mut [W::Kept], at: usize, to: usize) -> Pass
    requires begins { Begins (W.units src.now) at to }
    requires way_in_bounds { (at + source_units W.way 2 ≤ length (W.units src.now)) × (value_at W.way 2 (W.units src.now) at < 256 ^ 2) }
    ensures { Led W.way (field F.hue & repeat 3 (field F.component)).format (W.units src.now) (W.kept dst.old) (W.kept dst.new) at to result }
{
    if W::there(&*src, at, 18, 5) {
        if hsb_good::<W>(&*src, at) {
            return keep_color::<W>(&*src, dst, at, to, 4);
        }
    }
    each::<W>(&*src, dst, at, to, Group::Hsb)
}

// A plain paint, of which the letter is there. Grey and a hue are from 1.4 on.
fn plain<W: Way>(src: &[W::Unit], dst: &mut [W::Kept], at: usize, to: usize, version: u32) -> Pass
    requires begins { Begins (W.units src.now) at to }
    requires way_in_bounds { at + source_units W.way 2 ≤ length (W.units src.now) }
    ensures { PlainLed W.way version (W.units src.now) (W.kept dst.old) (W.kept dst.new) at to result }
{
    let letter = W::get(&*src, at, 2);
    if letter == TRANSPARENT {
        return keep::<W>(&*src, dst, at, to, 2);
    }
    if letter == RGB {
        return color::<W>(&*src, dst, at, to, 4);
    }
    if letter == CMYK {
        return color::<W>(&*src, dst, at, to, 5);
    }
    if version < V1_4 {
        return W::refusal(BAD_CHAR, at);
    }
    if letter == GREY {
        return color::<W>(&*src, dst, at, to, 2);
    }
    if letter == HSB {
        return hsb::<W>(&*src, dst, at, to);
    }
    W::refusal(BAD_CHAR, at)
}

pub fn plain_paint<W: Way>(
    src: &[W::Unit],
    dst: &mut [W::Kept],
    at: usize,
    to: usize,
    version: u32,
) -> Pass
    requires { Begins (W.units src.now) at to }
    ensures { Lays W.way (P.plain_paint version) (W.units src.now) (W.kept dst.old) (W.kept dst.new) at to result }
{
    if W::there(&*src, at, 2, 1) {
        return plain::<W>(&*src, dst, at, to, version);
    }
    refused::<W>(at, to, CUT)
}

// A letter that is allowed, two plain paints, and a direction or a location.
fn gradient<W: Way>(
    src: &[W::Unit],
    dst: &mut [W::Kept],
    at: usize,
    to: usize,
    version: u32,
    high: u64,
) -> Pass
    requires begins { Begins (W.units src.now) at to }
    requires way_in_bounds { (at + source_units W.way 2 ≤ length (W.units src.now)) × (value_at W.way 2 (W.units src.now) at < 256 ^ 2) × (high < 2147483648) }
    ensures { Led W.way (gradient_parts version high).format (W.units src.now) (W.kept dst.old) (W.kept dst.new) at to result }
{
    let told = keep::<W>(&*src, dst, at, to, 2);
    let start = plain_paint::<W>(&*src, dst, told.at, told.to, version);
    let end = plain_paint::<W>(&*src, dst, start.at, start.to, version);
    let last = integer_to::<W>(&*src, dst, end.at, end.to, high);
    last.pass
}

// From 1.3 on.
fn is_radial(version: u32, letter: u64) -> bool
    ensures { result ≡ (leb 3 version && eqb letter 68) }
{
    if version < V1_3 {
        return false;
    }
    letter == RADIAL
}

pub fn paint<W: Way>(
    src: &[W::Unit],
    dst: &mut [W::Kept],
    at: usize,
    to: usize,
    version: u32,
) -> Pass
    requires { Begins (W.units src.now) at to }
    ensures { Lays W.way (P.paint version) (W.units src.now) (W.kept dst.old) (W.kept dst.new) at to result }
{
    if W::there(&*src, at, 2, 1) {
        let letter = W::get(&*src, at, 2);
        if letter == LINEAR {
            return gradient::<W>(&*src, dst, at, to, version, LAST_DIRECTION);
        }
        if is_radial(version, letter) {
            return gradient::<W>(&*src, dst, at, to, version, LAST_LOCATION);
        }
        return plain::<W>(&*src, dst, at, to, version);
    }
    refused::<W>(at, to, CUT)
}
