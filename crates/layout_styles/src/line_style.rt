// Line styles.
ghost use Rattle.std.specs.Prelude.{[], leb};
ghost use Rattle.format.specs.Layout.{field, when, ◌&◌};
ghost use Rattle.drawing.specs.Fields as F;
ghost use Rattle.drawing.specs.MarkerChain as M;
ghost use Rattle.drawing.specs.LineStyle.{line_style};
ghost use Rattle.ways.specs.LineStyleLaws.{dashes, join};
ghost use Rattle.layout.specs.Lays.{Begins, Lays};

use crate::marker::{chain, markers};
use drawing::limits::{LAST_CAP, LAST_JOIN, LAST_WINDING, MITRE, V1_1};
use layout::field::{byte, dash_count, float};
use layout::run::run;
use ways::Pass;
use ways::way::Way;

// Dashes and their offset are one run of floats.
fn dashes<W: Way>(src: &[W::Unit], dst: &mut [W::Kept], at: usize, to: usize) -> Pass
    requires { Begins (W.units src.now) at to }
    ensures { Lays W.way dashes (W.units src.now) (W.kept dst.old) (W.kept dst.new) at to result }
{
    let counted = dash_count::<W>(&*src, dst, at, to);
    let count = counted.value;
    let behind = counted.pass;
    if count == 0 {
        return behind;
    }
    run::<W>(&*src, dst, behind.at, behind.to, 4, count + 1)
}

// A join, and the limit of a mitre.
fn join<W: Way>(src: &[W::Unit], dst: &mut [W::Kept], at: usize, to: usize) -> Pass
    requires { Begins (W.units src.now) at to }
    ensures { Lays W.way join (W.units src.now) (W.kept dst.old) (W.kept dst.new) at to result }
{
    let told = byte::<W>(&*src, dst, at, to, 0, LAST_JOIN);
    let behind = told.pass;
    if told.value == MITRE {
        let mitre = float::<W>(&*src, dst, behind.at, behind.to);
        return mitre.pass;
    }
    behind
}

fn mid_markers<W: Way>(
    src: &[W::Unit],
    dst: &mut [W::Kept],
    at: usize,
    to: usize,
    version: u32,
) -> Pass
    requires { Begins (W.units src.now) at to }
    ensures { Lays W.way (when (leb 1 version) (M.markers version) []) (W.units src.now) (W.kept dst.old) (W.kept dst.new) at to result }
{
    if version < V1_1 {
        return Pass { at, to };
    }
    chain::<W>(&*src, dst, at, to, version)
}

// What follows the join: the winding rule, and three chains of markers.
fn winding_and_markers<W: Way>(
    src: &[W::Unit],
    dst: &mut [W::Kept],
    at: usize,
    to: usize,
    version: u32,
) -> Pass
    requires { Begins (W.units src.now) at to }
    ensures { Lays W.way (field (F.byte_in 0 1) & M.markers version & when (leb 1 version) (M.markers version) [] & M.markers version) (W.units src.now) (W.kept dst.old) (W.kept dst.new) at to result }
{
    let winding = byte::<W>(&*src, dst, at, to, 0, LAST_WINDING);
    let wound = winding.pass;
    let start = markers::<W>(&*src, dst, wound.at, wound.to, version);
    let mid = mid_markers::<W>(&*src, dst, start.at, start.to, version);
    markers::<W>(&*src, dst, mid.at, mid.to, version)
}

pub fn line_style<W: Way>(
    src: &[W::Unit],
    dst: &mut [W::Kept],
    at: usize,
    to: usize,
    version: u32,
) -> Pass
    requires { Begins (W.units src.now) at to }
    ensures { Lays W.way (line_style version) (W.units src.now) (W.kept dst.old) (W.kept dst.new) at to result }
{
    let wide = float::<W>(&*src, dst, at, to);
    let behind = wide.pass;
    let dashed = dashes::<W>(&*src, dst, behind.at, behind.to);
    let cap = byte::<W>(&*src, dst, dashed.at, dashed.to, 0, LAST_CAP);
    let capped = cap.pass;
    let joined = join::<W>(&*src, dst, capped.at, capped.to);
    winding_and_markers::<W>(&*src, dst, joined.at, joined.to, version)
}
