// Bitmaps.
ghost use Rattle.drawing.specs.Choices.{if_flag};
ghost use Rattle.drawing.specs.Text.{transformation};
ghost use Rattle.drawing.specs.Bitmap as B;
ghost use Rattle.layout.specs.Lays.{Begins, Lays};

use layout::field::flag;
use layout::run::run;
use layout::string::string;
use layout::transformation::{put_transformation, transformation_at};
use ways::Pass;
use ways::way::Way;

fn bitmap_latex<W: Way>(src: &[W::Unit], dst: &mut [W::Kept], at: usize, to: usize) -> Pass
    requires { Begins (W.units src.now) at to }
    ensures { Lays W.way (if_flag B.bitmap_latex) (W.units src.now) (W.kept dst.old) (W.kept dst.new) at to result }
{
    let told = flag::<W>(&*src, dst, at, to);
    let behind = told.pass;
    if told.value == 1 {
        let link = string::<W>(&*src, dst, behind.at, behind.to, 0);
        return string::<W>(&*src, dst, link.at, link.to, 0);
    }
    behind
}

// Where the bitmap stands: no double is at fault.
fn placed<W: Way>(src: &[W::Unit], dst: &mut [W::Kept], at: usize, to: usize) -> Pass
    requires { Begins (W.units src.now) at to }
    ensures { Lays W.way transformation (W.units src.now) (W.kept dst.old) (W.kept dst.new) at to result }
{
    if W::there(&*src, at, 48, 12) {
        if dst.len() == 0 {
            return W::step(at, to, 8, 6);
        }
        let six = transformation_at::<W>(&*src, at);
        put_transformation::<W>(dst, to, six);
        return W::step(at, to, 8, 6);
    }
    run::<W>(&*src, dst, at, to, 8, 6)
}

pub fn bitmap<W: Way>(src: &[W::Unit], dst: &mut [W::Kept], at: usize, to: usize) -> Pass
    requires { Begins (W.units src.now) at to }
    ensures { Lays W.way B.bitmap (W.units src.now) (W.kept dst.old) (W.kept dst.new) at to result }
{
    let named = string::<W>(&*src, dst, at, to, 1);
    let linked = bitmap_latex::<W>(&*src, dst, named.at, named.to);
    placed::<W>(&*src, dst, linked.at, linked.to)
}
