// Big-endian fields, written into a buffer at a place: the digits of the value in base 256, and all else as it was.
// Of bytes that are stored with the lowest first the compiler makes one store, so a value's bytes are exchanged before. A double is two words.
ghost use Rattle.std.specs.Prelude.{◌≡◌, ◌++◌, ◌+◌, ◌/◌, ◌%◌, ◌≤◌, ◌<◌, length, take, drop};
ghost use Rattle.format.specs.Digits.{digits};

use crate::halves::{high, low};

pub fn put_byte(out: &mut [u8], at: usize, value: u32)
    requires { (at + 1 ≤ length out.old) × (value < 256) }
    ensures { out.new ≡ take at out.old ++ (digits 256 1 value ++ drop (at + 1) out.old) }
{
    out[at] = value as u8;
}

pub fn put_char(out: &mut [u8], at: usize, value: u32)
    requires { (at + 2 ≤ length out.old) × (value < 65536) }
    ensures { out.new ≡ take at out.old ++ (digits 256 2 value ++ drop (at + 2) out.old) }
{
    // without the last `% 256` the compiler does not see two bytes exchanged
    let exchanged = value % 256 * 256 + value / 256 % 256;
    put_byte(out, at, exchanged % 256);
    put_byte(out, at + 1, exchanged / 256);
}

fn exchanged_word(value: u32) -> u32
    ensures { (result % 256 ≡ value / 16777216) × (result / 256 % 256 ≡ value / 65536 % 256) × (result / 65536 % 256 ≡ value / 256 % 256) × (result / 16777216 ≡ value % 256) }
{
    value % 256 * 16777216
        + value / 256 % 256 * 65536
        + value / 65536 % 256 * 256
        + value / 16777216
}

pub fn put_word(out: &mut [u8], at: usize, value: u32)
    requires { at + 4 ≤ length out.old }
    ensures { out.new ≡ take at out.old ++ (digits 256 4 value ++ drop (at + 4) out.old) }
{
    let exchanged = exchanged_word(value);
    put_byte(out, at, exchanged % 256);
    put_byte(out, at + 1, exchanged / 256 % 256);
    put_byte(out, at + 2, exchanged / 65536 % 256);
    put_byte(out, at + 3, exchanged / 16777216);
}

pub fn put_double(out: &mut [u8], at: usize, value: u64)
    requires { at + 8 ≤ length out.old }
    ensures { out.new ≡ take at out.old ++ (digits 256 8 value ++ drop (at + 8) out.old) }
{
    put_word(out, at, high(value));
    put_word(out, at + 4, low(value));
}
