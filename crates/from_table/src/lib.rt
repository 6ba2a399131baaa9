// The way from a table's words to a file's bytes.
#![tactic(auto)]

ghost use Rattle.std.specs.Prelude.{◌≡◌, ◌<◌, refl, length, get_or};
ghost use Rattle.ways.specs.Picks.{bytes_picked, words_picked};
ghost use Rattle.from_table.specs.Way as OwnWay;
ghost use Rattle.from_table.specs.Way.{units};

use drawing::numbers::NO_TABLE;
use format::halves::from_halves;
use memory::write::{all_chars, write_chars, write_run, write_value};
use ways::way::Way;
use ways::{Pass, REFUSED};

#[derive(Clone, Copy)]
pub struct FromTable;

impl Way for FromTable {
    type Unit = u32;

    type Kept = u8;

    ghost way = { OwnWay.way };

    ghost units = { λ us. OwnWay.units us };

    ghost kept = { λ m. m };

    fn source_length(src: &[u32]) -> usize {
        src.len()
    }

    // So many words are there, which they never are behind a refusal.
    fn there(src: &[u32], at: usize, bytes: usize, words: usize) -> bool {
        at + words <= src.len()
    }

    fn get(src: &[u32], at: usize, size: usize) -> u64 {
        if size <= 4 {
            return src[at] as u64;
        }
        from_halves(src[at], src[at + 1])
    }

    // A flag: the word itself, which may be neither 0 nor 1.
    fn get_flag(src: &[u32], at: usize) -> u64 {
        FromTable::get(&*src, at, 1)
    }

    fn put(dst: &mut [u8], to: usize, size: usize, value: u64) {
        write_value(dst, to, size, value);
    }

    fn source_units(size: usize) -> usize {
        (size + 3) / 4
    }

    fn target_units(size: usize) -> usize {
        size
    }

    fn step(at: usize, to: usize, size: usize, count: usize) -> Pass {
        Pass {
            at: at + count * ((size + 3) / 4),
            to: to + count * size,
        }
    }

    // Everything that is wrong with a table is 16, at no place.
    fn refusal(number: u32, at: usize) -> Pass {
        Pass {
            at: REFUSED,
            to: NO_TABLE as usize,
        }
    }

    fn copy(src: &[u32], dst: &mut [u8], at: usize, to: usize, size: usize, count: usize) {
        if 0 < dst.len() {
            write_run(&*src, at, dst, to, size, count);
        }
    }

    fn copy_chars(src: &[u32], dst: &mut [u8], at: usize, to: usize, count: usize) {
        if 0 < dst.len() {
            write_chars(&*src, at, dst, to, count);
        }
    }

    // A word that is no char.
    fn has_wide(src: &[u32], at: usize, size: usize, count: usize) -> bool {
        if size == 2 {
            if all_chars(&*src, at, count) {
                return false;
            }
            return true;
        }
        false
    }

    fn past(at: usize, bytes: usize, words: usize) -> usize {
        at + words
    }

    fn ahead(at: usize, to: usize, bytes: usize, words: usize) -> Pass {
        Pass {
            at: at + words,
            to: to + bytes,
        }
    }

    ghost word = { refl };

    ghost double = { refl };

    ghost sources = { words_picked };

    ghost targets = { bytes_picked };

    ghost kept_length = { λ m. refl };
}

// The word at a place.
pub fn word_in(src: &[u32], at: usize) -> u32
    requires { at < length (units src.now) }
    ensures { result ≡ get_or (units src.now) at 0 }
{
    src[at]
}
