// Strings: a length, and as many chars.
ghost use Rattle.drawing.specs.String.{string};
ghost use Rattle.layout.specs.Lays.{Begins, Lays};

use crate::field::count;
use crate::run::chars;
use ways::Pass;
use ways::way::Way;

pub fn string<W: Way>(
    src: &[W::Unit],
    dst: &mut [W::Kept],
    at: usize,
    to: usize,
    least: u32,
) -> Pass
    requires { Begins (W.units src.now) at to }
    ensures { Lays W.way (string least) (W.units src.now) (W.kept dst.old) (W.kept dst.new) at to result }
{
    let counted = count::<W>(&*src, dst, at, to, least);
    let length = counted.value;
    let behind = counted.pass;
    // most descriptions are empty
    if length == 0 {
        return behind;
    }
    chars::<W>(&*src, dst, behind.at, behind.to, length)
}
