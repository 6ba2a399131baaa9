// The points of segments, and of an outline: a letter, and then points.
ghost use Rattle.std.specs.Prelude.{◌≡◌, ◌∷◌, ◌+◌, ◌≤◌, length};
ghost use Rattle.drawing.specs.Path.{outline};
ghost use Rattle.places.specs.Places.{Holds};
ghost use Rattle.extent.specs.Points.{point_at, points_of, segments_at, SegmentsInside, folded, boxed, box_answer};
ghost use Rattle.extent.specs.ExtentQuestion.{OutlineRead};

use crate::points::{box_at, nan_at, widened_by};
use drawing::Extent;
use drawing::letters::CURVE;
use drawing::limits::V1_3;

// A curve has two control points before its end. A start of its own is one more point.
fn points_of(letter: u32, own: usize) -> usize
    requires { own ≤ 1 }
    ensures { result ≡ points_of letter own }
{
    if letter as u64 == CURVE {
        return own + 3;
    }
    own + 1
}

// The points of so many segments from here widen the box; no box if one has a NaN.
fn segments_widened(
    extent: Extent,
    words: &[u32],
    from: usize,
    segments: usize,
    own: usize,
) -> Option<Extent>
    requires { SegmentsInside words.now from own segments }
    ensures { box_answer result ≡ folded extent (segments_at words.now from own segments) }
{
    let mut kept = extent;
    let mut at = from;
    for _segment in 0..segments {
        let points = points_of(words[at], own);
        let Some(widened) = widened_by(kept, words, at + 1, points) else {
            return None;
        };
        kept = widened;
        at = at + 1 + 4 * points;
    }
    Some(kept)
}

// The box begins at the first point.
fn around(words: &[u32], first: usize, from: usize, segments: usize, own: usize) -> Option<Extent>
    requires { (first + 4 ≤ length words.now) × SegmentsInside words.now from own segments }
    ensures { box_answer result ≡ boxed (point_at words.now first ∷ segments_at words.now from own segments) }
{
    if nan_at(words, first) {
        return None;
    }
    segments_widened(box_at(words, first), words, from, segments, own)
}

// From 1.3 on the start stands behind the count, and then the segments. Below, each segment has a start of its own behind its letter.
pub fn outline_extent(words: &[u32], at: usize, version: u32) -> Option<Extent>
    requires { Holds (outline version) words.now at }
    ensures { OutlineRead words.now version at (box_answer result) }
{
    let segments = words[at + 1] as usize;
    if version < V1_3 {
        return around(words, at + 3, at + 2, segments, 1);
    }
    around(words, at + 2, at + 6, segments, 0)
}
