// A table's words, stored from a file's bytes.
ghost use Rattle.std.specs.Prelude.{◌≡◌, true, ◌+◌, ◌*◌, ◌/◌, ◌^◌, ◌<◌, ◌≤◌, length, take, drop};
ghost use Rattle.format.specs.Digits.{number, digits};
ghost use Rattle.format.specs.Pass.{splice, put};
ghost use Rattle.format.specs.Recode.{recoded};
ghost use Rattle.format.specs.RunLaws.{put_many};
ghost use Rattle.memory.specs.Sizes.{is_field, is_run, is_short};
ghost use Rattle.memory.specs.Runs.{Room};

use crate::fit::fitting;
use format::decode::{char_at, word_at};
use format::halves::{high, low};

fn store_word(bodies: &mut [u32], to: usize, value: u32)
    ensures { bodies.new ≡ put to (digits (2 ^ 32) 1 value) bodies.old }
{
    if to < bodies.len() {
        bodies[to] = value;
    }
}

fn store_double(bodies: &mut [u32], to: usize, value: u64)
    requires { to < 2 ^ 60 }
    ensures { bodies.new ≡ put to (digits (2 ^ 32) 2 value) bodies.old }
{
    if to + 1 < bodies.len() {
        bodies[to] = high(value);
        bodies[to + 1] = low(value);
    }
}

// A field of up to four bytes is kept in a word, a double in two, the high half first.
pub fn store_value(bodies: &mut [u32], to: usize, size: usize, value: u64)
    requires { (to < 2 ^ 60) × (is_field size ≡ true) × (value < 256 ^ size) }
    ensures { bodies.new ≡ put to (digits (2 ^ 32) ((size + 3) / 4) value) bodies.old }
{
    if size <= 4 {
        store_word(bodies, to, value as u32);
        return;
    }
    store_double(bodies, to, value);
}

fn field_at(file: &[u8], at: usize, size: usize) -> u32
    requires { (is_short size ≡ true) × (at + size ≤ length file.now) }
    ensures { result ≡ number 256 (take size (drop at file.now)) }
{
    if size == 2 {
        return char_at(&*file, at);
    }
    word_at(&*file, at)
}

// Fields of one word each, which fit. The size is the same in every step, so the compiler makes a loop for each.
pub fn store_fields(
    file: &[u8],
    from: usize,
    bodies: &mut [u32],
    to: usize,
    size: usize,
    count: usize,
)
    requires { (is_short size ≡ true) × Room file.now from size 1 count to (length bodies.old) }
    ensures { bodies.new ≡ splice to (recoded 256 size (2 ^ 32) 1 count (drop from file.now)) bodies.old }
{
    for i in 0..count {
        bodies[to + i] = field_at(file, from + i * size, size);
    }
}

// Chars, as many as fit.
pub fn store_chars(file: &[u8], from: usize, bodies: &mut [u32], to: usize, count: usize)
    requires { from + count * 2 ≤ length file.now }
    ensures { bodies.new ≡ put_many 256 2 (2 ^ 32) 1 file.now count from to bodies.old }
{
    let n = fitting(bodies.len(), to, 1, count);
    store_fields(&*file, from, bodies, to, 2, n);
}

// A double is two words.
pub fn store_run(file: &[u8], at: usize, bodies: &mut [u32], to: usize, size: usize, count: usize)
    requires { (is_run size ≡ true) × (at + count * size ≤ length file.now) }
    ensures { bodies.new ≡ put_many 256 size (2 ^ 32) ((size + 3) / 4) file.now count at to bodies.old }
{
    let n = fitting(bodies.len(), to, (size + 3) / 4, count);
    if size == 8 {
        store_fields(&*file, at, bodies, to, 4, n + n);
        return;
    }
    store_fields(&*file, at, bodies, to, size, n);
}
