// A double of 64 bits as the two 32-bit words that a table keeps, the high half first: the digits of the double in base 2^32.
ghost use Rattle.std.specs.Prelude.{◌≡◌, [], ◌∷◌, ◌^◌, get_or};
ghost use Rattle.format.specs.Digits.{number, digits};

pub fn high(value: u64) -> u32
    ensures { result ≡ get_or (digits (2 ^ 32) 2 value) 0 0 }
{
    (value / 4294967296) as u32
}

pub fn low(value: u64) -> u32
    ensures { result ≡ get_or (digits (2 ^ 32) 2 value) 1 0 }
{
    (value % 4294967296) as u32
}

pub fn from_halves(high: u32, low: u32) -> u64
    ensures { result ≡ number (2 ^ 32) (high ∷ low ∷ []) }
{
    (high as u64) * 4294967296 + (low as u64)
}
