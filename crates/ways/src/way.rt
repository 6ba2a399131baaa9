// The primitives of a way: what a field is in the source, and in the target. A layout is written once, over any way.
ghost use Rattle.std.specs.Prelude.{◌≡◌, true, ◌+◌, ◌*◌, ◌^◌, ◌<◌, ◌≤◌, ℕ, List, length};
ghost use Rattle.format.specs.Digits.{digits, Below};
ghost use Rattle.format.specs.Kind.{flag};
ghost use Rattle.format.specs.Pass.{put};
ghost use Rattle.drawing.specs.Limits.{length_limit};
ghost use Rattle.memory.specs.Sizes.{is_field, is_run};
ghost use Rattle.ways.specs.Way as Ways;
ghost use Rattle.ways.specs.Way.{source_units, target_units, value_at};
ghost use Rattle.ways.specs.Picks.{Picks};
ghost use Rattle.ways.specs.Passes.{refusal_of, stepped, ahead_of};
ghost use Rattle.ways.specs.Steps.{Fits, Small};
ghost use Rattle.ways.specs.Runs.{AllSmall, HasWide, copied};

use crate::Pass;

pub trait Way {
    // What the source's memory is made of, and the target's.
    type Unit;

    type Kept;

    ghost way: { Ways.Way };

    // The units that the source's memory holds, and those that the target's does.
    ghost units: { List Self.Unit → List ℕ };

    ghost kept: { List Self.Kept → List ℕ };

    // How many units the source has.
    fn source_length(src: &[Self::Unit]) -> usize
        ensures { result ≡ length (units src.now) };

    // So much is there, which it never is behind a refusal.
    fn there(src: &[Self::Unit], at: usize, bytes: usize, words: usize) -> bool
        requires { at + way.source.pick bytes words < 2 ^ 60 }
        ensures fits { Fits way bytes words (units src.now) at result }
        ensures below { Below way.source.base (units src.now) };

    // A field's value.
    fn get(src: &[Self::Unit], at: usize, size: usize) -> u64
        requires { (is_field size ≡ true) × (at + source_units way size ≤ length (units src.now)) }
        ensures value { (result ≡ value_at way size (units src.now) at) × (result < way.source.base ^ source_units way size) }
        ensures below { Below way.source.base (units src.now) };

    // A flag's value, which may be neither 0 nor 1.
    fn get_flag(src: &[Self::Unit], at: usize) -> u64
        requires { at + source_units way 1 ≤ length (units src.now) }
        ensures { (result ≡ way.source.meant flag (value_at way 1 (units src.now) at)) × (result < way.source.base ^ source_units way 1) };

    fn put(dst: &mut [Self::Kept], to: usize, size: usize, value: u64)
        requires { (to < 2 ^ 60) × (is_field size ≡ true) × (value < 256 ^ size) }
        ensures { kept dst.new ≡ put to (digits way.target.base (target_units way size) value) (kept dst.old) };

    // The units of a field in the source, and in the target.
    fn source_units(size: usize) -> usize
        requires { size ≤ 8 }
        ensures { result ≡ source_units way size };

    fn target_units(size: usize) -> usize
        requires { size ≤ 8 }
        ensures { result ≡ target_units way size };

    // Behind so many fields of a size.
    fn step(at: usize, to: usize, size: usize, count: usize) -> Pass
        requires { (size ≤ 8) × Small way size count at to }
        ensures { result ≡ stepped way size count at to };

    fn refusal(number: u32, at: usize) -> Pass
        requires { at < 2 ^ 60 }
        ensures { result ≡ refusal_of way number at };

    // So many fields, which are there, put one behind the other where they fit.
    fn copy(
        src: &[Self::Unit],
        dst: &mut [Self::Kept],
        at: usize,
        to: usize,
        size: usize,
        count: usize,
    )
        requires { (is_run size ≡ true) × (at + count * source_units way size ≤ length (units src.now)) × AllSmall way size (units src.now) at count }
        ensures { kept dst.new ≡ copied way size count (units src.now) at to (kept dst.old) };

    // The same for chars.
    fn copy_chars(src: &[Self::Unit], dst: &mut [Self::Kept], at: usize, to: usize, count: usize)
        requires { (at + count * source_units way 2 ≤ length (units src.now)) × AllSmall way 2 (units src.now) at count }
        ensures { kept dst.new ≡ copied way 2 count (units src.now) at to (kept dst.old) };

    // A unit is no value of a field in a run.
    fn has_wide(src: &[Self::Unit], at: usize, size: usize, count: usize) -> bool
        requires { (is_run size ≡ true) × (at + count * source_units way size ≤ length (units src.now)) × (length (units src.now) ≤ length_limit) }
        ensures { HasWide way size (units src.now) at count result };

    // A place so much further.
    fn past(at: usize, bytes: usize, words: usize) -> usize
        requires { at + way.source.pick bytes words < 2 ^ 60 }
        ensures { result ≡ at + way.source.pick bytes words };

    // Behind fields of so many bytes in a file and words in a table.
    fn ahead(at: usize, to: usize, bytes: usize, words: usize) -> Pass
        requires { (at + way.source.pick bytes words < 2 ^ 60) × (to + way.target.pick bytes words < 2 ^ 60) }
        ensures { result ≡ ahead_of way bytes words at to };

    // A word and a double hold any number of their bytes.
    ghost word: { way.source.base ^ source_units way 4 ≡ 256 ^ 4 };

    ghost double: { way.source.base ^ source_units way 8 ≡ 256 ^ 8 };

    ghost sources: { Picks way.source };

    ghost targets: { Picks way.target };

    ghost kept_length: { (m : List Self.Kept) → length (kept m) ≡ length m };
}
