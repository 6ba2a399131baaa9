// A sheet's words, copied two at a time: one load, one exchange of eight bytes, one store. The load and the exchange are functions of their own, since of both
// in one the compiler makes a load and an exchange for each word.
ghost use Rattle.std.specs.Prelude.{◌≡◌, ◌+◌, ◌*◌, ◌/◌, ◌%◌, ◌^◌, ◌<◌, ◌≤◌, length, take, drop};
ghost use Rattle.format.specs.Digits.{number, digits};
ghost use Rattle.format.specs.Pass.{splice};
ghost use Rattle.format.specs.Recode.{recoded};
ghost use Rattle.memory.specs.Runs.{Room};
ghost use Rattle.sheets.specs.Copying.{exchanged};

use drawing::sheet::WORD_BYTES;
use format::decode::exchanged_char_at;
use format::halves::{from_halves, high, low};
use memory::store::store_fields;

// The words that are copied in one step: of so many the compiler makes straight code, of twice as many a loop.
const BLOCK: usize = 16;

fn exchanged_word_at(sheet: &[u8], at: usize) -> u32
    requires { at + 4 ≤ length sheet.now }
    ensures { exchanged result ≡ number 256 (take 4 (drop at sheet.now)) }
{
    let first = exchanged_char_at(&*sheet, at);
    let second = exchanged_char_at(&*sheet, at + 2);
    second * 65536 + first
}

// Two words, the first as the lower half.
fn exchanged_pair_at(sheet: &[u8], at: usize) -> u64
    requires { at + 8 ≤ length sheet.now }
    ensures result_value { exchanged (result % 2 ^ 32) ≡ number 256 (take 4 (drop at sheet.now)) }
    ensures result_value_2 { exchanged (result / 2 ^ 32) ≡ number 256 (take 4 (drop (at + 4) sheet.now)) }
{
    let first = exchanged_word_at(&*sheet, at);
    let second = exchanged_word_at(&*sheet, at + 4);
    from_halves(second, first)
}

fn exchanged_word(word: u32) -> u32
    ensures { result ≡ exchanged word }
{
    word % 256 * 16777216 + word / 256 % 256 * 65536 + word / 65536 % 256 * 256 + word / 16777216
}

fn exchanged_pair(pair: u64) -> u64
    ensures { result ≡ exchanged (pair % 2 ^ 32) * 2 ^ 32 + exchanged (pair / 2 ^ 32) }
{
    let first = exchanged_word((pair % 4294967296) as u32);
    let second = exchanged_word((pair / 4294967296) as u32);
    from_halves(first, second)
}

fn copy_pair(sheet: &[u8], from: usize, bodies: &mut [u32], to: usize)
    requires { (from + 8 ≤ length sheet.now) × (to + 1 < length bodies.old) }
    ensures { bodies.new ≡ splice to (digits (2 ^ 32) 2 (number 256 (take 8 (drop from sheet.now)))) bodies.old }
{
    let pair = exchanged_pair(exchanged_pair_at(&*sheet, from));
    bodies[to] = high(pair);
    bodies[to + 1] = low(pair);
}

fn copy_block(sheet: &[u8], from: usize, bodies: &mut [u32], to: usize)
    requires { (from + 64 ≤ length sheet.now) × (to + 16 ≤ length bodies.old) }
    ensures { bodies.new ≡ splice to (recoded 256 4 (2 ^ 32) 1 16 (drop from sheet.now)) bodies.old }
{
    for pair in 0..BLOCK / 2 {
        copy_pair(&*sheet, from + 2 * WORD_BYTES * pair, bodies, to + 2 * pair);
    }
}

// The last block is copied whole, some of it again.
fn copy_blocks(sheet: &[u8], from: usize, bodies: &mut [u32], to: usize, count: usize)
    requires { (16 ≤ count) × Room sheet.now from 4 1 count to (length bodies.old) }
    ensures { bodies.new ≡ splice to (recoded 256 4 (2 ^ 32) 1 count (drop from sheet.now)) bodies.old }
{
    for block in 0..(count - 1) / BLOCK {
        copy_block(
            &*sheet,
            from + WORD_BYTES * BLOCK * block,
            bodies,
            to + BLOCK * block,
        );
    }
    let last = count - BLOCK;
    copy_block(&*sheet, from + WORD_BYTES * last, bodies, to + last);
}

// Words that are there, and that fit.
pub fn copy_words(sheet: &[u8], from: usize, bodies: &mut [u32], to: usize, count: usize)
    requires { Room sheet.now from 4 1 count to (length bodies.old) }
    ensures { bodies.new ≡ splice to (recoded 256 4 (2 ^ 32) 1 count (drop from sheet.now)) bodies.old }
{
    if count < BLOCK {
        store_fields(&*sheet, from, bodies, to, WORD_BYTES, count);
        return;
    }
    copy_blocks(&*sheet, from, bodies, to, count);
}
