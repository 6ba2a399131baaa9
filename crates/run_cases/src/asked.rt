// What is asked about rows.
ghost use Rattle.std.specs.Iterator.{IsFinite};

use std::fmt::{Display, Formatter, Result, Write};
use text_out::TextOut;

// Asks about each of these rows, and prints the row and what was answered.
pub fn put_rows<I: Iterator<Item = u32> + Drop, F: Fn(u32) -> A, A: Display + Drop>(
    out: &mut TextOut,
    rows: I,
    ask: F,
)
    requires can { I.can_next rows }
    requires ends { IsFinite (I.remaining rows) }
    requires callable { F.IsAlwaysCallable ask }
{
    for row in rows {
        let _ = out.write(Asked {
            row,
            answer: ask(row),
        });
    }
}

// A row, and what was answered about it.
#[derive(Drop)]
struct Asked<A> {
    row: u32,
    answer: A,
}

// Its parts are written one by one, since there are many, and a hole of `write!` costs as much again as a number.
impl<A: Display> Display for Asked<A> {
    fn fmt<W: Write>(&self, f: &mut Formatter<W>) -> Result {
        f.write_str(" ; ")?;
        self.row.fmt(f)?;
        f.write_str(":")?;
        self.answer.fmt(f)
    }
}

// A space before each number.
pub fn put_numbers<W: Write, const N: usize>(f: &mut Formatter<W>, numbers: [u32; N]) -> Result {
    for number in numbers {
        f.write_str(" ")?;
        number.fmt(f)?;
    }
    Ok(())
}
