// The places of the parts of a body: each stands behind others, which are passed as the check passes them.
ghost use Rattle.std.specs.Prelude.{◌≤◌, length};
ghost use Rattle.drawing.specs.Limits.{length_limit};
ghost use Rattle.layout.specs.Lays.{Begins, Lays};
ghost use Rattle.from_table.specs.Way.{way};
ghost use Rattle.places.specs.Parts.{layout_of};
ghost use Rattle.places.specs.Places.{Passed};

use crate::Part;
use drawing::limits::LEAST_MEMBERS;
use from_table::FromTable;
use layout::field::{count, flow_flag};
use layout::string::string;
use layout_objects::leaf::leaf_parts;
use layout_objects::text::{before_alternative, font, latex_if};
use layout_styles::line_style::line_style;
use layout_styles::paint::{paint, plain_paint};
use ways::{Pass, REFUSED};

fn pass(words: &[u32], out: &mut [u8], at: usize, to: usize, version: u32, part: Part) -> Pass
    requires { Begins words.now at to }
    ensures { Lays way (layout_of part version) words.now out.old out.new at to result }
{
    match part {
        Part::Count => {
            let counted = count::<FromTable>(&*words, out, at, to, LEAST_MEMBERS);
            counted.pass
        }
        Part::Leaf(letter) => leaf_parts::<FromTable>(&*words, out, at, to, version, letter),
        Part::FlowFlag => {
            let flow = flow_flag::<FromTable>(&*words, out, at, to);
            flow.pass
        }
        Part::Paint => paint::<FromTable>(&*words, out, at, to, version),
        Part::PlainPaint => plain_paint::<FromTable>(&*words, out, at, to, version),
        Part::Font => font::<FromTable>(&*words, out, at, to),
        Part::Latex => latex_if::<FromTable>(&*words, out, at, to),
        Part::BeforeAlternative => before_alternative::<FromTable>(&*words, out, at, to),
        Part::Chars => string::<FromTable>(&*words, out, at, to, 1),
        Part::LineStyle => line_style::<FromTable>(&*words, out, at, to, version),
    }
}

// The place behind a part that stands here, which is passed into no memory. Where none stands, it is here.
pub fn behind(words: &[u32], at: usize, version: u32, part: Part) -> usize
    requires { (at ≤ length words.now) × (length words.now ≤ length_limit) }
    ensures { Passed (layout_of part version) words.now at result }
{
    let mut no_out = [0u8; 0];
    let to = pass(&*words, &mut no_out, at, 0, version, part);
    if REFUSED <= to.at {
        return at;
    }
    to.at
}
