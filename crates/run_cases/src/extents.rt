// Cases of `extent`: a data file is a table's, with the rows to ask about behind it.

use crate::asked::{put_numbers, put_rows};
use crate::case::Case;
use drawing::ExtentAnswer;
use std::fmt;
use text_out::TextOut;

pub fn put_groups(out: &mut TextOut, case: Case<'_>) {
    let Case {
        contents,
        bodies,
        rest,
    } = case;
    put_rows(out, rest.iter().copied(), |row| {
        Sides(jdr::extent(contents, bodies, row))
    });
}

// The number of the answer, and the bits of the four sides.
#[derive(Clone, Copy)]
struct Sides(ExtentAnswer);

impl fmt::Display for Sides {
    fn fmt<W: fmt::Write>(&self, f: &mut fmt::Formatter<W>) -> fmt::Result {
        let ExtentAnswer { number, extent } = self.0;
        put_numbers(f, [number])?;
        for side in [extent.left, extent.bottom, extent.right, extent.top] {
            f.write_str(" ")?;
            put_digits(f, bits(side))?;
        }
        Ok(())
    }
}

// Sixteen digits. `{:016x}` would put each 0 before a number by itself.
fn put_digits<W: fmt::Write>(f: &mut fmt::Formatter<W>, bits: u64) -> fmt::Result {
    let mut digits = [0u8; 16];
    hex::encode_to_slice(bits.to_be_bytes(), &mut digits).unwrap();
    match str::from_utf8(&digits) {
        Ok(text) => f.write_str(text),
        Err(_) => Err(fmt::Error),
    }
}

// No side is a NaN; one would have the bits of all NaNs here.
fn bits(side: f64) -> u64 {
    if side.is_nan() {
        0x7FF8000000000000
    } else {
        side.to_bits()
    }
}
