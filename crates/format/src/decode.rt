// Big-endian fields of a file, read at a place: the number that the field's bytes write in base 256.
// A field of two parts is the first part, moved up by the width of the second, and the second.
ghost use Rattle.std.specs.Prelude.{◌≡◌, ◌+◌, ◌*◌, ◌/◌, ◌%◌, ◌<◌, ◌≤◌, length, take, drop};
ghost use Rattle.std.specs.Int.{w32};
ghost use Rattle.std.proofs.Common.{to_z};
ghost use Rattle.format.specs.Digits.{number};

pub fn byte_at(file: &[u8], at: usize) -> u32
    requires { at + 1 ≤ length file.now }
    ensures { result ≡ number 256 (take 1 (drop at file.now)) }
{
    file[at] as u32
}

// A char with its bytes exchanged. Of a sum whose first byte is the lowest the compiler makes one load, and of many such sums loads of several chars.
pub fn exchanged_char_at(file: &[u8], at: usize) -> u32
    requires { at + 2 ≤ length file.now }
    ensures { (result % 256 * 256 + result / 256 ≡ number 256 (take 2 (drop at file.now))) × (result < 65536) }
{
    let first = file[at] as u32;
    let second = file[at + 1] as u32;
    second * 256 + first
}

pub fn char_at(file: &[u8], at: usize) -> u32
    requires { at + 2 ≤ length file.now }
    ensures { result ≡ number 256 (take 2 (drop at file.now)) }
{
    let exchanged = exchanged_char_at(file, at);
    exchanged % 256 * 256 + exchanged / 256
}

pub fn word_at(file: &[u8], at: usize) -> u32
    requires { at + 4 ≤ length file.now }
    ensures { result ≡ number 256 (take 4 (drop at file.now)) }
{
    let first = char_at(file, at);
    let second = char_at(file, at + 2);
    first * 65536 + second
}

// A flat sum of four chars, and not two words: of this the compiler makes one load.
pub fn double_at(file: &[u8], at: usize) -> u64
    requires { at + 8 ≤ length file.now }
    ensures { result ≡ number 256 (take 8 (drop at file.now)) }
{
    let first = char_at(file, at) as u64;
    let second = char_at(file, at + 2) as u64;
    let third = char_at(file, at + 4) as u64;
    let fourth = char_at(file, at + 6) as u64;
    first * 281474976710656 + second * 4294967296 + third * 65536 + fourth
}

// A word read as a number in two's complement.
pub fn signed(word: u32) -> i32
    ensures { result ≡ to_z w32 word }
{
    if word < 2147483648 {
        word as i32
    } else {
        -1 - ((4294967295 - word) as i32)
    }
}
