// The signed numbers that a range or a count allows.
ghost use Rattle.std.specs.Prelude.{◌≡◌, ◌<◌, pos};
ghost use Rattle.std.specs.Int.Signed.{le_z};
ghost use Rattle.std.specs.Int.{w8, w32};
ghost use Rattle.std.proofs.Common.{to_z};
ghost use Rattle.drawing.specs.Fields.{in_range};

use format::decode::signed;

// A byte read as a number in two's complement.
pub fn signed_byte(byte: u32) -> i32
    requires { byte < 256 }
    ensures { result ≡ to_z w8 byte }
{
    if byte < 128 {
        return signed(byte);
    }
    // the sign, carried up to 32 bits
    signed(byte + 4294967040)
}

// The number is compared as an unsigned one once it is known not to be negative, so the bound may be any.
pub fn reaches(least: u32, number: i32) -> bool
    ensures { result ≡ le_z (pos least) number }
{
    if number < 0 {
        return false;
    }
    least <= number as u32
}

pub fn within(low: u32, high: u32, number: i32) -> bool
    ensures { result ≡ in_range low high number }
{
    if number < 0 {
        return false;
    }
    let size = number as u32;
    if size < low {
        return false;
    }
    size <= high
}

pub fn byte_within(low: u32, high: u32, byte: u32) -> bool
    requires { byte < 256 }
    ensures { result ≡ in_range low high (to_z w8 byte) }
{
    within(low, high, signed_byte(byte))
}

pub fn word_reaches(least: u32, word: u32) -> bool
    ensures { result ≡ le_z (pos least) (to_z w32 word) }
{
    reaches(least, signed(word))
}
