// Paths: two paints, a line style and an outline of segments, which texts along paths have too.
ghost use Rattle.drawing.specs.Path as P;
ghost use Rattle.layout.specs.Lays.{Begins, Lays};

use crate::segment::{joined_segments, segments};
use drawing::limits::{LEAST_SEGMENTS, V1_3};
use layout::field::count;
use layout::letter::closed_letter;
use layout::run::run;
use layout_styles::line_style::line_style;
use layout_styles::paint::paint;
use ways::Pass;
use ways::way::Way;

// A count, the start from 1.3 on, and as many segments.
fn counted_segments<W: Way>(
    src: &[W::Unit],
    dst: &mut [W::Kept],
    at: usize,
    to: usize,
    version: u32,
) -> Pass
    requires { Begins (W.units src.now) at to }
    ensures { Lays W.way (P.counted_segments version) (W.units src.now) (W.kept dst.old) (W.kept dst.new) at to result }
{
    let told = count::<W>(&*src, dst, at, to, LEAST_SEGMENTS);
    let number = told.value;
    let behind = told.pass;
    if version < V1_3 {
        return joined_segments::<W>(&*src, dst, behind.at, behind.to, number);
    }
    let start = run::<W>(&*src, dst, behind.at, behind.to, 8, 2);
    segments::<W>(&*src, dst, start.at, start.to, number)
}

pub fn outline<W: Way>(
    src: &[W::Unit],
    dst: &mut [W::Kept],
    at: usize,
    to: usize,
    version: u32,
) -> Pass
    requires { Begins (W.units src.now) at to }
    ensures { Lays W.way (P.outline version) (W.units src.now) (W.kept dst.old) (W.kept dst.new) at to result }
{
    let told = closed_letter::<W>(&*src, dst, at, to);
    let behind = told.pass;
    counted_segments::<W>(&*src, dst, behind.at, behind.to, version)
}

pub fn path<W: Way>(
    src: &[W::Unit],
    dst: &mut [W::Kept],
    at: usize,
    to: usize,
    version: u32,
) -> Pass
    requires { Begins (W.units src.now) at to }
    ensures { Lays W.way (P.path version) (W.units src.now) (W.kept dst.old) (W.kept dst.new) at to result }
{
    let lined = paint::<W>(&*src, dst, at, to, version);
    let filled = paint::<W>(&*src, dst, lined.at, lined.to, version);
    let styled = line_style::<W>(&*src, dst, filled.at, filled.to, version);
    outline::<W>(&*src, dst, styled.at, styled.to, version)
}
