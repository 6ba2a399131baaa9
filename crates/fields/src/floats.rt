// The floats that a paint allows, by their bits: below 0x8000_0000, which is -0, floats lie in the order of their bits.
ghost use Rattle.std.specs.Prelude.{◌≡◌, ◌<◌, ◌^◌};
ghost use Rattle.std.specs.Float.{binary32};
ghost use Rattle.format.specs.FloatRange.{from_zero_to, from_zero_below};

// 0x3f80_0000 is 1
pub fn is_component(bits: u64) -> bool
    requires { bits < 2 ^ 32 }
    ensures { result ≡ from_zero_to binary32 1 bits }
{
    if bits <= 0x3f80_0000 {
        return true;
    }
    bits == 0x8000_0000
}

// 0x43b4_0000 is 360
pub fn is_hue(bits: u64) -> bool
    requires { bits < 2 ^ 32 }
    ensures { result ≡ from_zero_below binary32 360 bits }
{
    if bits < 0x43b4_0000 {
        return true;
    }
    bits == 0x8000_0000
}
