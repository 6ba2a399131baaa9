// Fields that are known to be there and allowed: they are only moved.
ghost use Rattle.std.specs.Prelude.{◌≡◌, true, ◌+◌, ◌*◌, ◌^◌, ◌<◌, ◌≤◌, length};
ghost use Rattle.format.specs.Digits.{Below};
ghost use Rattle.memory.specs.Sizes.{is_field};
ghost use Rattle.ways.specs.Way.{source_units, value_at};
ghost use Rattle.ways.specs.Moves.{Moved};
ghost use Rattle.layout.specs.Lays.{Begins};

use ways::Pass;
use ways::way::Way;

pub fn keep<W: Way>(src: &[W::Unit], dst: &mut [W::Kept], at: usize, to: usize, size: usize) -> Pass
    requires begins { Begins (W.units src.now) at to }
    requires size_value { (is_field size ≡ true) × (at + source_units W.way size ≤ length (W.units src.now)) × (Below W.way.source.base (W.units src.now) → value_at W.way size (W.units src.now) at < 256 ^ size) }
    ensures moved { Moved W.way size 1 (W.units src.now) (W.kept dst.old) (W.kept dst.new) at to result }
    ensures below { Below W.way.source.base (W.units src.now) }
{
    let value = W::get(&*src, at, size);
    W::put(dst, to, size, value);
    W::step(at, to, size, 1)
}

// So many words, few enough to be taken one by one.
pub fn keep_words<W: Way>(
    src: &[W::Unit],
    dst: &mut [W::Kept],
    at: usize,
    to: usize,
    count: usize,
) -> Pass
    requires begins { Begins (W.units src.now) at to }
    requires way_in_bounds { at + count * source_units W.way 4 ≤ length (W.units src.now) }
    ensures { Moved W.way 4 count (W.units src.now) (W.kept dst.old) (W.kept dst.new) at to result }
{
    let mut behind = Pass { at, to };
    for _ in 0..count {
        behind = keep::<W>(&*src, dst, behind.at, behind.to, 4);
    }
    behind
}

// So many points.
pub fn keep_points<W: Way>(
    src: &[W::Unit],
    dst: &mut [W::Kept],
    at: usize,
    to: usize,
    count: usize,
) -> Pass
    requires begins { Begins (W.units src.now) at to }
    requires way_in_bounds { at + 2 * count * source_units W.way 8 ≤ length (W.units src.now) }
    ensures { Moved W.way 8 (2 * count) (W.units src.now) (W.kept dst.old) (W.kept dst.new) at to result }
{
    let mut behind = Pass { at, to };
    for _ in 0..count {
        let x = keep::<W>(&*src, dst, behind.at, behind.to, 8);
        behind = keep::<W>(&*src, dst, x.at, x.to, 8);
    }
    behind
}
