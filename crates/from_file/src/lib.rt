// The way from a file's bytes to a table's words.
#![tactic(auto)]

ghost use Rattle.std.specs.Prelude.{refl};
ghost use Rattle.ways.specs.Picks.{bytes_picked, words_picked};
ghost use Rattle.from_file.specs.Way as OwnWay;

use format::decode::{byte_at, char_at, double_at, word_at};
use memory::store::{store_chars, store_run, store_value};
use ways::way::Way;
use ways::{Pass, REFUSED};

#[derive(Clone, Copy)]
pub struct FromFile;

impl Way for FromFile {
    type Unit = u8;

    type Kept = u32;

    ghost way = { OwnWay.way };

    ghost units = { λ us. OwnWay.units us };

    ghost kept = { λ m. m };

    fn source_length(src: &[u8]) -> usize {
        src.len()
    }

    // So many bytes are there, which they never are behind a refusal.
    fn there(src: &[u8], at: usize, bytes: usize, words: usize) -> bool {
        at + bytes <= src.len()
    }

    fn get(src: &[u8], at: usize, size: usize) -> u64 {
        match size {
            1 => byte_at(&*src, at) as u64,
            2 => char_at(&*src, at) as u64,
            4 => word_at(&*src, at) as u64,
            _ => double_at(&*src, at),
        }
    }

    // A flag: any byte but 0 is true.
    fn get_flag(src: &[u8], at: usize) -> u64 {
        if src[at] != 0 {
            return 1;
        }
        0
    }

    fn put(dst: &mut [u32], to: usize, size: usize, value: u64) {
        store_value(dst, to, size, value);
    }

    fn source_units(size: usize) -> usize {
        size
    }

    fn target_units(size: usize) -> usize {
        (size + 3) / 4
    }

    fn step(at: usize, to: usize, size: usize, count: usize) -> Pass {
        Pass {
            at: at + count * size,
            to: to + count * ((size + 3) / 4),
        }
    }

    fn refusal(number: u32, at: usize) -> Pass {
        Pass {
            at: at + REFUSED,
            to: number as usize,
        }
    }

    fn copy(src: &[u8], dst: &mut [u32], at: usize, to: usize, size: usize, count: usize) {
        if 0 < dst.len() {
            store_run(&*src, at, dst, to, size, count);
        }
    }

    fn copy_chars(src: &[u8], dst: &mut [u32], at: usize, to: usize, count: usize) {
        if 0 < dst.len() {
            store_chars(&*src, at, dst, to, count);
        }
    }

    // None is in a file.
    fn has_wide(src: &[u8], at: usize, size: usize, count: usize) -> bool {
        false
    }

    fn past(at: usize, bytes: usize, words: usize) -> usize {
        at + bytes
    }

    fn ahead(at: usize, to: usize, bytes: usize, words: usize) -> Pass {
        Pass {
            at: at + bytes,
            to: to + words,
        }
    }

    ghost word = { refl };

    ghost double = { refl };

    ghost sources = { bytes_picked };

    ghost targets = { words_picked };

    ghost kept_length = { λ m. refl };
}
