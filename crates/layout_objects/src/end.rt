// What ends every object: the flow frame flag, and from 1.2 on the description.
ghost use Rattle.std.specs.Prelude.{◌≡◌, true, ◌+◌, ◌^◌, ◌<◌, ◌≤◌};
ghost use Rattle.format.specs.Digits.{Below};
ghost use Rattle.drawing.specs.LeafLayout.{object_end};
ghost use Rattle.ways.specs.Way.{source_units};
ghost use Rattle.ways.specs.EndLaws.{ZeroAt};
ghost use Rattle.layout.specs.Lays.{Begins, Lays};

use drawing::limits::V1_2;
use layout::field::flow_flag;
use layout::group::keep;
use layout::string::string;
use ways::Pass;
use ways::way::Way;

pub fn object_end<W: Way>(
    src: &[W::Unit],
    dst: &mut [W::Kept],
    at: usize,
    to: usize,
    version: u32,
) -> Pass
    requires { Begins (W.units src.now) at to }
    ensures { Lays W.way (object_end version) (W.units src.now) (W.kept dst.old) (W.kept dst.new) at to result }
{
    let flow = flow_flag::<W>(&*src, dst, at, to);
    let behind = flow.pass;
    if version < V1_2 {
        return behind;
    }
    string::<W>(&*src, dst, behind.at, behind.to, 0)
}

// The flag is there, and 0.
fn flow_is_plain<W: Way>(src: &[W::Unit], at: usize) -> bool
    requires { at < 2 ^ 40 }
    ensures { result ≡ true → ZeroAt W.way 1 (W.units src.now) at }
{
    if W::there(&*src, at, 1, 1) {
        return W::get(&*src, at, 1) == 0;
    }
    false
}

// The flag and the description's length are there, and 0.
fn end_is_plain<W: Way>(src: &[W::Unit], at: usize) -> bool
    requires { at < 2 ^ 40 }
    ensures plain { result ≡ true → ZeroAt W.way 1 (W.units src.now) at × ZeroAt W.way 4 (W.units src.now) (at + source_units W.way 1) }
    ensures below { Below W.way.source.base (W.units src.now) }
{
    if W::there(&*src, at, 5, 2) {
        if W::get(&*src, at, 1) != 0 {
            return false;
        }
        return W::get(&*src, W::past(at, 1, 1), 4) == 0;
    }
    false
}

fn older_end<W: Way>(
    src: &[W::Unit],
    dst: &mut [W::Kept],
    at: usize,
    to: usize,
    version: u32,
) -> Pass
    requires begins { Begins (W.units src.now) at to }
    requires version_bound { version < 2 }
    ensures { Lays W.way (object_end version) (W.units src.now) (W.kept dst.old) (W.kept dst.new) at to result }
{
    if flow_is_plain::<W>(&*src, at) {
        return keep::<W>(&*src, dst, at, to, 1);
    }
    object_end::<W>(&*src, dst, at, to, version)
}

fn newer_end<W: Way>(
    src: &[W::Unit],
    dst: &mut [W::Kept],
    at: usize,
    to: usize,
    version: u32,
) -> Pass
    requires begins { Begins (W.units src.now) at to }
    requires le_version { 2 ≤ version }
    ensures { Lays W.way (object_end version) (W.units src.now) (W.kept dst.old) (W.kept dst.new) at to result }
{
    if end_is_plain::<W>(&*src, at) {
        if dst.len() == 0 {
            return W::ahead(at, to, 5, 2);
        }
        let flow = keep::<W>(&*src, dst, at, to, 1);
        return keep::<W>(&*src, dst, flow.at, flow.to, 4);
    }
    object_end::<W>(&*src, dst, at, to, version)
}

// The same of a group: most have no description, and then flag and length are a group of fields.
pub fn group_end<W: Way>(
    src: &[W::Unit],
    dst: &mut [W::Kept],
    at: usize,
    to: usize,
    version: u32,
) -> Pass
    requires { Begins (W.units src.now) at to }
    ensures { Lays W.way (object_end version) (W.units src.now) (W.kept dst.old) (W.kept dst.new) at to result }
{
    if version < V1_2 {
        return older_end::<W>(&*src, dst, at, to, version);
    }
    newer_end::<W>(&*src, dst, at, to, version)
}
