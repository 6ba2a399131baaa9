// Output gathered in a buffer that the caller lends. The buffer and how much of it is used are the caller's: each call takes both, and answers how much is
// used after it, which is never more than there is. A write that fails is let go, and what it was to write is lost, as `TextOut` does.
ghost use Rattle.std.specs.Prelude.{◌≡◌, ◌≤◌};

use std::io::{Print, Stdout};

// 4,096 bytes, as many as are written at once.
pub type Buffer = [u8; 4096];

// A full buffer is written out and begins again.
pub fn put(out: Stdout, buffer: &mut Buffer, used: usize, byte: u8) -> usize
    ensures { result ≤ 4096 }
{
    if used < 4096 {
        buffer[used] = byte;
        return used + 1;
    }
    let begun = flush(out, buffer, used);
    buffer[begun] = byte;
    begun + 1
}

// As much as there is, where more is said to be used.
pub fn within(used: usize) -> usize
    ensures { result ≤ 4096 }
{
    used.min(4096)
}

pub fn put_all(out: Stdout, buffer: &mut Buffer, used: usize, bytes: &[u8]) -> usize
    ensures { result ≤ 4096 }
{
    let mut at = within(used);
    for byte in bytes {
        at = put(out, buffer, at, *byte);
    }
    at
}

pub fn put_decimal(out: Stdout, buffer: &mut Buffer, used: usize, number: u32) -> usize
    ensures { result ≤ 4096 }
{
    let mut digits = itoa::Buffer::new();
    put_all(out, buffer, used, digits.format(number).as_bytes())
}

// A space and a number.
pub fn put_next(out: Stdout, buffer: &mut Buffer, used: usize, number: u32) -> usize
    ensures { result ≤ 4096 }
{
    let used = put(out, buffer, used, b' ');
    put_decimal(out, buffer, used, number)
}

// Writes out what is in the buffer. Nothing of it is used after that.
pub fn flush(out: Stdout, buffer: &Buffer, used: usize) -> usize
    ensures { result ≡ 0 }
{
    let _ = out.write_all(&buffer[..within(used)]);
    0
}
