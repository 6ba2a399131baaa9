// Points, as they stand in the words of a table: four words each, two a coordinate. And the box that is widened by them.
ghost use Rattle.std.specs.Prelude.{◌≡◌, not, ◌+◌, ◌*◌, ◌<◌, ◌≤◌, T, length};
ghost use Rattle.std.specs.Float.{binary64};
ghost use Rattle.std.specs.Float.Ieee.{nan_bits};
ghost use Rattle.drawing.specs.Extent as E;
ghost use Rattle.extent.specs.Points.{bits_at, point_at, points_at, nan_at, folded, box_answer};

use drawing::Extent;
use format::halves::from_halves;

// A NaN's bits are, but for the sign, above those of an infinity.
fn is_nan(bits: u64) -> bool
    ensures { result ≡ nan_bits binary64 bits }
{
    0x7ff0_0000_0000_0000 < bits % 0x8000_0000_0000_0000
}

fn bits_at(words: &[u32], at: usize) -> u64
    requires { at + 1 < length words.now }
    ensures { result ≡ bits_at words.now at }
{
    from_halves(words[at], words[at + 1])
}

// One of a point's coordinates is not a number.
pub fn nan_at(words: &[u32], at: usize) -> bool
    requires { at + 4 ≤ length words.now }
    ensures { result ≡ nan_at words.now at }
{
    is_nan(bits_at(words, at)) || is_nan(bits_at(words, at + 2))
}

// No float is made of a NaN's bits.
fn coordinate(words: &[u32], at: usize) -> f64
    requires { (at + 1 < length words.now) × T (not (nan_bits binary64 (bits_at words.now at))) }
    ensures { result ≡ E.coordinate (bits_at words.now at) }
{
    f64::from_bits(bits_at(words, at))
}

// The box that begins at a point.
pub fn box_at(words: &[u32], at: usize) -> Extent
    requires { (at + 4 ≤ length words.now) × T (not (nan_at words.now at)) }
    ensures { result ≡ E.box_at (point_at words.now at) }
{
    let x = coordinate(words, at);
    let y = coordinate(words, at + 2);
    Extent {
        left: x,
        bottom: y,
        right: x,
        top: y,
    }
}

// Of equal coordinates the one that was kept stays, so a zero keeps its sign.
fn lesser(kept: f64, later: f64) -> f64
    ensures { result ≡ E.lesser kept later }
{
    if later < kept {
        return later;
    }
    kept
}

fn greater(kept: f64, later: f64) -> f64
    ensures { result ≡ E.greater kept later }
{
    if kept < later {
        return later;
    }
    kept
}

fn widened(extent: Extent, words: &[u32], at: usize) -> Extent
    requires { (at + 4 ≤ length words.now) × T (not (nan_at words.now at)) }
    ensures { result ≡ E.widened extent (point_at words.now at) }
{
    let x = coordinate(words, at);
    let y = coordinate(words, at + 2);
    Extent {
        left: lesser(extent.left, x),
        bottom: lesser(extent.bottom, y),
        right: greater(extent.right, x),
        top: greater(extent.top, y),
    }
}

// So many points from here widen the box; no box if one has a NaN.
pub fn widened_by(extent: Extent, words: &[u32], from: usize, points: usize) -> Option<Extent>
    requires { from + 4 * points ≤ length words.now }
    ensures { box_answer result ≡ folded extent (points_at words.now from points) }
{
    let mut kept = extent;
    for i in 0..points {
        let at = from + 4 * i;
        if nan_at(words, at) {
            return None;
        }
        kept = widened(kept, words, at);
    }
    Some(kept)
}
