// A transformation, six doubles in a fixed order, handed about as one: an array of their bits by value, since a number made of a NaN's bits is no
// longer those bits.
ghost use Rattle.std.specs.Prelude.{◌≡◌, ◌+◌, ◌*◌, ◌^◌, ◌<◌, ◌≤◌, length};
ghost use Rattle.drawing.specs.Limits.{length_limit};
ghost use Rattle.ways.specs.Way.{source_units, target_units};
ghost use Rattle.ways.specs.TransformationLaws.{doubles_at, put_doubles};

use ways::way::Way;

pub fn transformation_at<W: Way>(src: &[W::Unit], at: usize) -> [u64; 6]
    requires { (at + 6 * source_units W.way 8 ≤ length (W.units src.now)) × (length (W.units src.now) ≤ length_limit) }
    ensures { result ≡ doubles_at W.way 6 (W.units src.now) at }
{
    let units = W::source_units(8);
    let a = W::get(&*src, at, 8);
    let b = W::get(&*src, at + units, 8);
    let c = W::get(&*src, at + 2 * units, 8);
    let d = W::get(&*src, at + 3 * units, 8);
    let e = W::get(&*src, at + 4 * units, 8);
    let f = W::get(&*src, at + 5 * units, 8);
    [a, b, c, d, e, f]
}

pub fn put_transformation<W: Way>(dst: &mut [W::Kept], to: usize, six: [u64; 6])
    requires { (to + 6 * target_units W.way 8 < 2 ^ 60) × (length six ≡ 6) }
    ensures { (W.kept dst.new) ≡ put_doubles W.way six to (W.kept dst.old) }
{
    let units = W::target_units(8);
    let mut place = to;
    for double in six {
        W::put(dst, place, 8, double);
        place = place + units;
    }
}
