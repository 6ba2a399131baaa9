// Texts. Shape, series, size and transformation are a group.
ghost use Rattle.std.specs.Prelude.{◌≡◌, true, ◌+◌, ◌≤◌, length};
ghost use Rattle.format.specs.Layout.{field, ◌&◌};
ghost use Rattle.drawing.specs.Fields.{byte_in};
ghost use Rattle.drawing.specs.Limits.{length_limit};
ghost use Rattle.drawing.specs.String as S;
ghost use Rattle.drawing.specs.Choices.{if_flag};
ghost use Rattle.drawing.specs.Text as T;
ghost use Rattle.ways.specs.TextLaws as X;
ghost use Rattle.ways.specs.TextLaws.{FaceGood};
ghost use Rattle.layout.specs.Lays.{Begins, Lays};

use drawing::limits::{LAST_HORIZONTAL, LAST_SERIES, LAST_SHAPE, LAST_VERTICAL};
use fields::ranges::word_reaches;
use layout::each::{Group, each};
use layout::field::{byte, flag};
use layout::group::keep;
use layout::string::string;
use layout::transformation::{put_transformation, transformation_at};
use layout_styles::paint::paint;
use ways::Pass;
use ways::way::Way;

// None of these values is at fault.
fn face_good<W: Way>(src: &[W::Unit], at: usize) -> bool
    requires { (at + W.way.source.pick 54 15 ≤ length (W.units src.now)) × (length (W.units src.now) ≤ length_limit) }
    ensures { result ≡ true → FaceGood W.way (W.units src.now) at }
{
    let shape = W::get(&*src, at, 1);
    let series = W::get(&*src, W::past(at, 1, 1), 1);
    let size = W::get(&*src, W::past(at, 2, 2), 4);
    if LAST_SHAPE < shape {
        return false;
    }
    if LAST_SERIES < series {
        return false;
    }
    word_reaches(0, size as u32)
}

fn keep_face<W: Way>(src: &[W::Unit], dst: &mut [W::Kept], at: usize, to: usize) -> Pass
    requires begins { Begins (W.units src.now) at to }
    requires pick_in_bounds { (at + W.way.source.pick 54 15 ≤ length (W.units src.now)) × FaceGood W.way (W.units src.now) at }
    ensures { Lays W.way X.face (W.units src.now) (W.kept dst.old) (W.kept dst.new) at to result }
{
    let shape = keep::<W>(&*src, dst, at, to, 1);
    let series = keep::<W>(&*src, dst, shape.at, shape.to, 1);
    let size = keep::<W>(&*src, dst, series.at, series.to, 4);
    let placed = transformation_at::<W>(&*src, size.at);
    put_transformation::<W>(dst, size.to, placed);
    W::step(size.at, size.to, 8, 6)
}

fn face<W: Way>(src: &[W::Unit], dst: &mut [W::Kept], at: usize, to: usize) -> Pass
    requires { Begins (W.units src.now) at to }
    ensures { Lays W.way X.face (W.units src.now) (W.kept dst.old) (W.kept dst.new) at to result }
{
    if W::there(&*src, at, 54, 15) {
        if face_good::<W>(&*src, at) {
            if dst.len() == 0 {
                return W::ahead(at, to, 54, 15);
            }
            return keep_face::<W>(&*src, dst, at, to);
        }
    }
    each::<W>(&*src, dst, at, to, Group::Face)
}

pub fn font<W: Way>(src: &[W::Unit], dst: &mut [W::Kept], at: usize, to: usize) -> Pass
    requires { Begins (W.units src.now) at to }
    ensures { Lays W.way T.font (W.units src.now) (W.kept dst.old) (W.kept dst.new) at to result }
{
    let family = string::<W>(&*src, dst, at, to, 0);
    face::<W>(&*src, dst, family.at, family.to)
}

// The LaTeX fields before the alternative.
pub fn before_alternative<W: Way>(
    src: &[W::Unit],
    dst: &mut [W::Kept],
    at: usize,
    to: usize,
) -> Pass
    requires { Begins (W.units src.now) at to }
    ensures { Lays W.way (S.string 0 & S.string 0 & S.string 0 & S.string 0 & field (byte_in 0 2) & field (byte_in 0 3)) (W.units src.now) (W.kept dst.old) (W.kept dst.new) at to result }
{
    let family = string::<W>(&*src, dst, at, to, 0);
    let series = string::<W>(&*src, dst, family.at, family.to, 0);
    let shape = string::<W>(&*src, dst, series.at, series.to, 0);
    let size = string::<W>(&*src, dst, shape.at, shape.to, 0);
    let horizontal = byte::<W>(&*src, dst, size.at, size.to, 0, LAST_HORIZONTAL);
    let across = horizontal.pass;
    let vertical = byte::<W>(&*src, dst, across.at, across.to, 0, LAST_VERTICAL);
    vertical.pass
}

fn latex<W: Way>(src: &[W::Unit], dst: &mut [W::Kept], at: usize, to: usize) -> Pass
    requires { Begins (W.units src.now) at to }
    ensures { Lays W.way T.latex (W.units src.now) (W.kept dst.old) (W.kept dst.new) at to result }
{
    let before = before_alternative::<W>(&*src, dst, at, to);
    string::<W>(&*src, dst, before.at, before.to, 0)
}

pub fn latex_if<W: Way>(src: &[W::Unit], dst: &mut [W::Kept], at: usize, to: usize) -> Pass
    requires { Begins (W.units src.now) at to }
    ensures { Lays W.way (if_flag T.latex) (W.units src.now) (W.kept dst.old) (W.kept dst.new) at to result }
{
    let told = flag::<W>(&*src, dst, at, to);
    let behind = told.pass;
    if told.value == 1 {
        return latex::<W>(&*src, dst, behind.at, behind.to);
    }
    behind
}

pub fn text_style<W: Way>(src: &[W::Unit], dst: &mut [W::Kept], at: usize, to: usize) -> Pass
    requires { Begins (W.units src.now) at to }
    ensures { Lays W.way T.text_style (W.units src.now) (W.kept dst.old) (W.kept dst.new) at to result }
{
    let set = font::<W>(&*src, dst, at, to);
    latex_if::<W>(&*src, dst, set.at, set.to)
}

pub fn text<W: Way>(
    src: &[W::Unit],
    dst: &mut [W::Kept],
    at: usize,
    to: usize,
    version: u32,
) -> Pass
    requires { Begins (W.units src.now) at to }
    ensures { Lays W.way (T.text version) (W.units src.now) (W.kept dst.old) (W.kept dst.new) at to result }
{
    let styled = text_style::<W>(&*src, dst, at, to);
    let painted = paint::<W>(&*src, dst, styled.at, styled.to, version);
    string::<W>(&*src, dst, painted.at, painted.to, 1)
}
