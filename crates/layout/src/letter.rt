// Chars that tell what follows.
ghost use Rattle.std.specs.Prelude.{◌≡◌, true, ◌*◌, ◌^◌, ◌<◌};
ghost use Rattle.ways.specs.Segments.{straight, closed_letter, segment_letter};
ghost use Rattle.layout.specs.Lays.{Begins, Asks};
ghost use Rattle.drawing.specs.Fields.{unless};
ghost use Rattle.ways.specs.FieldPassLaws.{OneOf, is_one_of};

use crate::field::{cut, kept};
use drawing::letters::{CLOSED, CURVE, LINE, MOVE, OPEN};
use drawing::numbers::BAD_CHAR;
use ways::FieldPass;
use ways::way::Way;

fn letter_fault(letter: u64, a: u64, b: u64, c: u64) -> u32
    ensures { result ≡ unless (is_one_of a b c letter) 7 }
{
    if letter == a {
        return 0;
    }
    if letter == b {
        return 0;
    }
    if letter == c {
        return 0;
    }
    BAD_CHAR
}

fn one_of<W: Way>(
    src: &[W::Unit],
    dst: &mut [W::Kept],
    at: usize,
    to: usize,
    a: u64,
    b: u64,
    c: u64,
) -> FieldPass
    requires begins { Begins (W.units src.now) at to }
    requires a_bound { (a < 256 ^ 2) × (b < 256 ^ 2) × (c < 256 ^ 2) }
    ensures { OneOf W.way a b c (W.units src.now) (W.kept dst.old) (W.kept dst.new) at to result }
{
    if W::there(&*src, at, 2, 1) {
        let letter = W::get(&*src, at, 2);
        return kept::<W>(dst, at, to, 2, letter, letter_fault(letter, a, b, c));
    }
    cut::<W>(at, to)
}

pub fn closed_letter<W: Way>(
    src: &[W::Unit],
    dst: &mut [W::Kept],
    at: usize,
    to: usize,
) -> FieldPass
    requires { Begins (W.units src.now) at to }
    ensures { Asks W.way closed_letter (W.units src.now) (W.kept dst.old) (W.kept dst.new) at to result }
{
    one_of::<W>(&*src, dst, at, to, OPEN, CLOSED, CLOSED)
}

pub fn segment_letter<W: Way>(
    src: &[W::Unit],
    dst: &mut [W::Kept],
    at: usize,
    to: usize,
) -> FieldPass
    requires { Begins (W.units src.now) at to }
    ensures { Asks W.way segment_letter (W.units src.now) (W.kept dst.old) (W.kept dst.new) at to result }
{
    one_of::<W>(&*src, dst, at, to, LINE, MOVE, CURVE)
}

// A line or a move has an end, a curve two control points before it.
pub fn is_straight(letter: u64) -> bool
    ensures { result ≡ straight letter }
{
    if letter == LINE {
        return true;
    }
    letter == MOVE
}
