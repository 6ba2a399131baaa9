// The bytes that a session holds of a part that is not all there, in an array that is made anew: those that it held, and those behind them.
ghost use Rattle.std.specs.Prelude.{◌≡◌, ◌++◌, ◌+◌, ◌≤◌, length, take, drop};
ghost use Rattle.pieces.specs.Held.{first_of};

// So many of the first bytes.
pub fn kept(old: [u8; 184], count: usize) -> [u8; 184]
    requires { count ≤ 184 }
    ensures { (length result ≡ 184) × (first_of count result ≡ first_of count old) }
{
    appended([0u8; 184], 0, &old, 0, count)
}

// So many bytes of a run, from a place on, behind so many of the first ones.
pub fn appended(old: [u8; 184], at: usize, src: &[u8], from: usize, count: usize) -> [u8; 184]
    requires { (length old ≡ 184) × (at + count ≤ 184) × (from + count ≤ length src.now) }
    ensures { (length result ≡ 184) × (first_of (at + count) result ≡ first_of at old ++ take count (drop from src.now)) }
{
    let mut bytes = old;
    bytes[at..at + count].copy_from_slice(&src[from..from + count]);
    bytes
}
