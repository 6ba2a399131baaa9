// A file's bytes, written from a table's words; and whether words are chars.
ghost use Rattle.std.specs.Prelude.{◌≡◌, true, [], ◌∷◌, ◌+◌, ◌*◌, ◌/◌, ◌^◌, ◌<◌, ◌≤◌, length, drop};
ghost use Rattle.format.specs.Digits.{digits, all_digits};
ghost use Rattle.format.specs.Pass.{splice, put};
ghost use Rattle.format.specs.Recode.{recoded};
ghost use Rattle.format.specs.RunLaws.{put_many};
ghost use Rattle.memory.specs.Sizes.{is_field, is_run, is_short};
ghost use Rattle.memory.specs.Runs.{Room, AllChars, SmallWords, EightChars};

use crate::fit::fitting;
use format::encode::{put_byte, put_char, put_double, put_word};

pub fn write_value(out: &mut [u8], to: usize, size: usize, value: u64)
    requires { (to < 2 ^ 60) × (is_field size ≡ true) × (value < 256 ^ size) }
    ensures { out.new ≡ put to (digits 256 size value) out.old }
{
    if out.len() < to + size {
        return;
    }
    match size {
        1 => put_byte(out, to, value as u32),
        2 => put_char(out, to, value as u32),
        4 => put_word(out, to, value as u32),
        _ => put_double(out, to, value),
    }
}

fn put_field(out: &mut [u8], place: usize, size: usize, value: u32)
    requires { (is_short size ≡ true) × (place + size ≤ length out.old) × (size ≡ 2 → value < 65536) }
    ensures { out.new ≡ splice place (digits 256 size value) out.old }
{
    if size == 2 {
        put_char(out, place, value);
        return;
    }
    put_word(out, place, value);
}

// Fields of one word each, which fit. The size is the same in every step, so the compiler makes a loop for each.
pub fn write_fields(
    words: &[u32],
    from: usize,
    out: &mut [u8],
    to: usize,
    size: usize,
    count: usize,
)
    requires size_value { (is_short size ≡ true) × Room words.now from 1 size count to (length out.old) }
    requires small_words { SmallWords size words.now from count }
    ensures { out.new ≡ splice to (recoded (2 ^ 32) 1 256 size count (drop from words.now)) out.old }
{
    for i in 0..count {
        put_field(out, to + i * size, size, words[from + i]);
    }
}

fn put_four(out: &mut [u8], to: usize, a: u32, b: u32, c: u32, d: u32)
    requires { (to + 8 ≤ length out.old) × (a < 65536) × (b < 65536) × (c < 65536) × (d < 65536) }
    ensures { out.new ≡ splice to (all_digits 256 2 (a ∷ b ∷ c ∷ d ∷ [])) out.old }
{
    put_char(out, to, a);
    put_char(out, to + 2, b);
    put_char(out, to + 4, c);
    put_char(out, to + 6, d);
}

// All words are read before a byte is written, so the compiler takes them together.
fn write_eight(words: &[u32], at: usize, out: &mut [u8], to: usize)
    requires { (at + 8 ≤ length words.now) × (to + 16 ≤ length out.old) × EightChars words.now at }
    ensures { out.new ≡ splice to (recoded (2 ^ 32) 1 256 2 8 (drop at words.now)) out.old }
{
    let a = words[at];
    let b = words[at + 1];
    let c = words[at + 2];
    let d = words[at + 3];
    let e = words[at + 4];
    let f = words[at + 5];
    let g = words[at + 6];
    let h = words[at + 7];
    put_four(out, to, a, b, c, d);
    put_four(out, to + 8, e, f, g, h);
}

// The last eight are taken whole, some of them for a second time.
fn write_many(words: &[u32], from: usize, out: &mut [u8], to: usize, count: usize)
    requires le_count { (8 ≤ count) × Room words.now from 1 2 count to (length out.old) }
    requires small_words { SmallWords 2 words.now from count }
    ensures { out.new ≡ splice to (recoded (2 ^ 32) 1 256 2 count (drop from words.now)) out.old }
{
    for i in 0..(count - 1) / 8 {
        write_eight(words, from + 8 * i, out, to + 16 * i);
    }
    write_eight(&*words, from + count - 8, out, to + 2 * count - 16);
}

// Chars, as many as fit.
pub fn write_chars(words: &[u32], from: usize, out: &mut [u8], to: usize, count: usize)
    requires count_in_bounds { from + count ≤ length words.now }
    requires small_words { SmallWords 2 words.now from count }
    ensures { out.new ≡ put_many (2 ^ 32) 1 256 2 words.now count from to out.old }
{
    let n = fitting(out.len(), to, 2, count);
    if n < 8 {
        write_fields(&*words, from, out, to, 2, n);
        return;
    }
    write_many(&*words, from, out, to, n);
}

// A double is two words.
pub fn write_run(words: &[u32], at: usize, out: &mut [u8], to: usize, size: usize, count: usize)
    requires size_value { (is_run size ≡ true) × (at + count * ((size + 3) / 4) ≤ length words.now) }
    requires small_words { SmallWords size words.now at count }
    ensures { out.new ≡ put_many (2 ^ 32) ((size + 3) / 4) 256 size words.now count at to out.old }
{
    let n = fitting(out.len(), to, size, count);
    if size == 8 {
        write_fields(&*words, at, out, to, 4, n + n);
        return;
    }
    if size == 4 {
        write_fields(&*words, at, out, to, 4, n);
        return;
    }
    write_chars(&*words, at, out, to, n);
}

// All of these words are chars. They are taken together, with no test for each, so that the compiler takes several at a time.
pub fn all_chars(words: &[u32], from: usize, count: usize) -> bool
    requires { from + count ≤ length words.now }
    ensures { AllChars words.now from count result }
{
    let mut all = 0u32;
    for word in &words[from..from + count] {
        all |= *word;
    }
    all < 65536
}
