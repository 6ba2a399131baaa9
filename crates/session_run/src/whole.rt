// Parts that are judged whole, by the reader's own functions, into no memory.
ghost use Rattle.std.specs.Prelude.{◌≡◌, ◌<◌, ◌≤◌, length};
ghost use Rattle.format.specs.Layout.{field, repeat, ◌&◌};
ghost use Rattle.drawing.specs.Fields as F;
ghost use Rattle.ways.specs.LineStyleLaws as S;
ghost use Rattle.ways.specs.TextLaws as T;
ghost use Rattle.layout.specs.Lays.{Begins, Lays};
ghost use Rattle.from_file.specs.Way.{way};
ghost use Rattle.pieces.specs.LeafLaws as L;
ghost use Rattle.session_run.specs.Digit.{digit};
ghost use Rattle.session_run.specs.Wholes.{WholeHere, PartHere};

use crate::cursor::Cursor;
use crate::parts::Part;
use drawing::limits::{
    LAST_CAP, LAST_HORIZONTAL, LAST_JOIN, LAST_SERIES, LAST_SHAPE, LAST_VERTICAL, LAST_WINDING,
    MITRE,
};
use from_file::FromFile;
use layout::field::{byte, float, font_size, joined};
use layout::run::run;
use layout_styles::marker::markers;
use layout_styles::paint::paint;
use ways::Pass;

// A join with the limit of a mitre, and the winding rule.
fn join_end(src: &[u8], dst: &mut [u32], at: usize, to: usize) -> Pass
    requires { Begins src.now at to }
    ensures { Lays way (S.join & field (F.byte_in 0 1)) src.now dst.old dst.new at to result }
{
    let join = byte::<FromFile>(&*src, dst, at, to, 0, LAST_JOIN);
    let joined = join.pass;
    if join.value == MITRE {
        let mitre = float::<FromFile>(&*src, dst, joined.at, joined.to);
        let limited = mitre.pass;
        let wound = byte::<FromFile>(&*src, dst, limited.at, limited.to, 0, LAST_WINDING);
        return wound.pass;
    }
    let winding = byte::<FromFile>(&*src, dst, joined.at, joined.to, 0, LAST_WINDING);
    winding.pass
}

// Cap, join and winding rule.
fn line_end(here: Cursor) -> Pass
    ensures { WholeHere L.line_end here.entry result }
{
    let mut none = [0u32; 0];
    let cap = byte::<FromFile>(here.src, &mut none, here.at, here.to, 0, LAST_CAP);
    join_end(here.src, &mut none, cap.pass.at, cap.pass.to)
}

// Shape, series, size and transformation.
fn face(here: Cursor) -> Pass
    ensures { WholeHere T.face here.entry result }
{
    let mut none = [0u32; 0];
    let shape = byte::<FromFile>(here.src, &mut none, here.at, here.to, 0, LAST_SHAPE);
    let series = byte::<FromFile>(
        here.src,
        &mut none,
        shape.pass.at,
        shape.pass.to,
        0,
        LAST_SERIES,
    );
    let size = font_size::<FromFile>(here.src, &mut none, series.pass.at, series.pass.to);
    run::<FromFile>(here.src, &mut none, size.pass.at, size.pass.to, 8, 6)
}

// Horizontal and vertical alignment.
fn alignment(here: Cursor) -> Pass
    ensures { WholeHere L.alignment here.entry result }
{
    let mut none = [0u32; 0];
    let across = byte::<FromFile>(here.src, &mut none, here.at, here.to, 0, LAST_HORIZONTAL);
    byte::<FromFile>(
        here.src,
        &mut none,
        across.pass.at,
        across.pass.to,
        0,
        LAST_VERTICAL,
    )
    .pass
}

// A start with the very bits of the end before.
fn joined_start(here: Cursor, x: u64, y: u64) -> Pass
    ensures { WholeHere (field (F.joined x) & field (F.joined y)) here.entry result }
{
    let mut none = [0u32; 0];
    let across = joined::<FromFile>(here.src, &mut none, here.at, here.to, x);
    joined::<FromFile>(here.src, &mut none, across.pass.at, across.pass.to, y).pass
}

// A few doubles.
fn doubles(here: Cursor, count: u64) -> Pass
    requires { (0 < count) × (count ≤ 6) }
    ensures { WholeHere (repeat count (field F.double)) here.entry result }
{
    let mut none = [0u32; 0];
    run::<FromFile>(here.src, &mut none, here.at, here.to, 8, count)
}

pub fn whole(here: Cursor, version: u32, x: u64, y: u64, part: Part) -> Pass
    requires { (1 ≤ digit part) × (digit part ≤ 10) }
    ensures { PartHere version x y (digit part) here.entry result }
{
    let mut none = [0u32; 0];
    match part {
        Part::Paint => paint::<FromFile>(here.src, &mut none, here.at, here.to, version),
        Part::Width => float::<FromFile>(here.src, &mut none, here.at, here.to).pass,
        Part::LineEnd => line_end(here),
        Part::Markers => markers::<FromFile>(here.src, &mut none, here.at, here.to, version),
        Part::Point => doubles(here, 2),
        Part::Controls => doubles(here, 4),
        Part::Join => joined_start(here, x, y),
        Part::Face => face(here),
        Part::Transformation => doubles(here, 6),
        Part::Alignment => alignment(here),
        _ => unreachable!(),
    }
}
