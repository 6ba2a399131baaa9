// The way from a sheet's words, which lie in its bytes, to a file's bytes. What does not touch the source is as in `from_table`.
#![tactic(auto)]

ghost use Rattle.std.specs.Prelude.{◌≡◌, true, ◌+◌, ◌*◌, ◌^◌, ◌<◌, ◌≤◌, refl, length, get_or, drop};
ghost use Rattle.format.specs.Digits.{digits};
ghost use Rattle.format.specs.Pass.{splice};
ghost use Rattle.format.specs.Recode.{recoded};
ghost use Rattle.memory.specs.Sizes.{is_run};
ghost use Rattle.memory.specs.CharLaws.{Exchanged};
ghost use Rattle.memory.specs.Runs.{Room, AllChars};
ghost use Rattle.ways.specs.Way.{source_units};
ghost use Rattle.ways.specs.Runs.{AllSmall};
ghost use Rattle.ways.specs.Picks.{bytes_picked, words_picked};
ghost use Rattle.from_sheet.specs.Way as OwnWay;
ghost use Rattle.from_sheet.specs.Way.{way, units};

use format::decode::{exchanged_char_at, word_at};
use format::encode::{put_char, put_double, put_word};
use format::halves::from_halves;
use from_table::FromTable;
use memory::fit::fitting;
use ways::Pass;
use ways::way::Way;

// the bytes of a word
const WORD: usize = 4;

#[derive(Clone, Copy)]
pub struct FromSheet;

impl Way for FromSheet {
    type Unit = u8;

    type Kept = u8;

    ghost way = { OwnWay.way };

    ghost units = { λ us. OwnWay.units us };

    ghost kept = { λ m. m };

    fn source_length(src: &[u8]) -> usize {
        src.len() / WORD
    }

    // So many words are there, which they never are behind a refusal.
    fn there(src: &[u8], at: usize, bytes: usize, words: usize) -> bool {
        at + words <= FromSheet::source_length(&*src)
    }

    fn get(src: &[u8], at: usize, size: usize) -> u64 {
        if size <= 4 {
            return word_in(&*src, at) as u64;
        }
        from_halves(word_in(&*src, at), word_in(&*src, at + 1))
    }

    // A flag: the word itself, which may be neither 0 nor 1.
    fn get_flag(src: &[u8], at: usize) -> u64 {
        FromSheet::get(&*src, at, 1)
    }

    fn put(dst: &mut [u8], to: usize, size: usize, value: u64) {
        FromTable::put(dst, to, size, value);
    }

    fn source_units(size: usize) -> usize {
        FromTable::source_units(size)
    }

    fn target_units(size: usize) -> usize {
        FromTable::target_units(size)
    }

    fn step(at: usize, to: usize, size: usize, count: usize) -> Pass {
        FromTable::step(at, to, size, count)
    }

    fn refusal(number: u32, at: usize) -> Pass {
        FromTable::refusal(number, at)
    }

    fn copy(src: &[u8], dst: &mut [u8], at: usize, to: usize, size: usize, count: usize) {
        if 0 < dst.len() {
            let n = fitting(dst.len(), to, size, count);
            copy_fields(&*src, dst, at, to, size, n);
        }
    }

    fn copy_chars(src: &[u8], dst: &mut [u8], at: usize, to: usize, count: usize) {
        FromSheet::copy(&*src, dst, at, to, 2, count);
    }

    // A word that is no char.
    fn has_wide(src: &[u8], at: usize, size: usize, count: usize) -> bool {
        if size == 2 {
            if all_chars(&*src, at, count) {
                return false;
            }
            return true;
        }
        false
    }

    fn past(at: usize, bytes: usize, words: usize) -> usize {
        FromTable::past(at, bytes, words)
    }

    fn ahead(at: usize, to: usize, bytes: usize, words: usize) -> Pass {
        FromTable::ahead(at, to, bytes, words)
    }

    ghost word = { refl };

    ghost double = { refl };

    ghost sources = { words_picked };

    ghost targets = { bytes_picked };

    ghost kept_length = { λ m. refl };
}

// The word at a place.
pub fn word_in(src: &[u8], at: usize) -> u32
    requires { at < length (units src.now) }
    ensures { result ≡ get_or (units src.now) at 0 }
{
    word_at(&*src, WORD * at)
}

// A field for which there is room.
fn put_field(dst: &mut [u8], to: usize, size: usize, value: u64)
    requires { (is_run size ≡ true) × (to + size ≤ length dst.old) × (value < 256 ^ size) }
    ensures { dst.new ≡ splice to (digits 256 size value) dst.old }
{
    match size {
        2 => put_char(dst, to, value as u32),
        4 => put_word(dst, to, value as u32),
        _ => put_double(dst, to, value),
    }
}

// So many fields, which are there and fit, put one behind the other.
fn copy_fields(src: &[u8], dst: &mut [u8], at: usize, to: usize, size: usize, count: usize)
    requires size_value { (is_run size ≡ true) × Room (units src.now) at (source_units way size) size count to (length dst.old) }
    requires all_small { AllSmall way size (units src.now) at count }
    ensures { dst.new ≡ splice to (recoded (2 ^ 32) (source_units way size) 256 size count (drop at (units src.now))) dst.old }
{
    let words = FromSheet::source_units(size);
    for i in 0..count {
        let value = FromSheet::get(&*src, at + i * words, size);
        put_field(dst, to + i * size, size, value);
    }
}

// The word at a place with its bytes exchanged, of which the compiler makes one load.
fn exchanged_word_in(src: &[u8], at: usize) -> u32
    requires { at < length (units src.now) }
    ensures { Exchanged (get_or (units src.now) at 0) result }
{
    let place = WORD * at;
    let first = exchanged_char_at(&*src, place);
    let second = exchanged_char_at(&*src, place + 2);
    second * 65536 + first
}

// All of these words are chars. They are taken together, with no test for each, so that the compiler takes several at a time.
fn all_chars(src: &[u8], from: usize, count: usize) -> bool
    requires { from + count ≤ length (units src.now) }
    ensures { AllChars (units src.now) from count result }
{
    let mut all = 0u32;
    for i in 0..count {
        all |= exchanged_word_in(&*src, from + i);
    }
    all % 65536 == 0
}
