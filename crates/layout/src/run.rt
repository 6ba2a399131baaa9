// Runs of like fields of which none can be at fault: chars, floats, doubles.
ghost use Rattle.std.specs.Prelude.{◌≡◌, true, ◌^◌, ◌<◌, ◌≤◌};
ghost use Rattle.drawing.specs.String as S;
ghost use Rattle.memory.specs.Sizes.{is_run};
ghost use Rattle.ways.specs.Steps.{CutRun};
ghost use Rattle.ways.specs.Runs.{Runs};
ghost use Rattle.layout.specs.Lays.{Begins, Lays};

use drawing::numbers::CUT;
use ways::way::Way;
use ways::{Pass, REFUSED};

// A run that is cut is refused at the first field that is not whole.
fn cut_run<W: Way>(src: &[W::Unit], at: usize, to: usize, size: usize) -> Pass
    requires begins { Begins (W.units src.now) at to }
    requires size_value { is_run size ≡ true }
    ensures { CutRun W.way size (W.units src.now) at to result }
{
    if REFUSED <= at {
        return Pass { at, to };
    }
    let all = W::source_length(&*src);
    let units = W::source_units(size);
    W::refusal(CUT, at + (all - at) / units * units)
}

pub fn run<W: Way>(
    src: &[W::Unit],
    dst: &mut [W::Kept],
    at: usize,
    to: usize,
    size: usize,
    count: u64,
) -> Pass
    requires begins { Begins (W.units src.now) at to }
    requires size_value { (is_run size ≡ true) × (count ≤ 2 ^ 32) }
    ensures { Runs W.way size count (W.units src.now) (W.kept dst.old) (W.kept dst.new) at to result }
{
    let n = count as usize;
    if W::there(&*src, at, n * size, n * ((size + 3) / 4)) {
        if W::has_wide(&*src, at, size, n) {
            return W::refusal(CUT, at);
        }
        W::copy(&*src, dst, at, to, size, n);
        return W::step(at, to, size, n);
    }
    cut_run::<W>(&*src, at, to, size)
}

// Chars: strings are most of a file.
pub fn chars<W: Way>(src: &[W::Unit], dst: &mut [W::Kept], at: usize, to: usize, count: u64) -> Pass
    requires begins { Begins (W.units src.now) at to }
    requires count_bound { count < 2 ^ 32 }
    ensures { Lays W.way (S.chars count) (W.units src.now) (W.kept dst.old) (W.kept dst.new) at to result }
{
    let n = count as usize;
    if W::there(&*src, at, n * 2, n) {
        if W::has_wide(&*src, at, 2, n) {
            return W::refusal(CUT, at);
        }
        W::copy_chars(&*src, dst, at, to, n);
        return W::step(at, to, 2, n);
    }
    cut_run::<W>(&*src, at, to, 2)
}
