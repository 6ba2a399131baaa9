// Texts along paths: a text with its paint first, and an outline.
ghost use Rattle.drawing.specs.TextPath as T;
ghost use Rattle.layout.specs.Lays.{Begins, Lays};

use crate::path::outline;
use crate::text::text_style;
use layout::string::string;
use layout_styles::paint::paint;
use ways::Pass;
use ways::way::Way;

pub fn text_path<W: Way>(
    src: &[W::Unit],
    dst: &mut [W::Kept],
    at: usize,
    to: usize,
    version: u32,
) -> Pass
    requires { Begins (W.units src.now) at to }
    ensures { Lays W.way (T.text_path version) (W.units src.now) (W.kept dst.old) (W.kept dst.new) at to result }
{
    let painted = paint::<W>(&*src, dst, at, to, version);
    let styled = text_style::<W>(&*src, dst, painted.at, painted.to);
    let worded = string::<W>(&*src, dst, styled.at, styled.to, 1);
    outline::<W>(&*src, dst, worded.at, worded.to, version)
}
