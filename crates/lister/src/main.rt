// The lister: reads a drawing of at most 8,192 bytes on standard input and prints its table, or the refusal.
#![tactic(auto)]

use kind::Kind;
use std::fmt;
use std::fmt::{Display, Write};
use text_out::TextOut;
use text_out::input::read_full;

mod kind;

fn main(rt: HostRuntime) {
    // One byte more than is taken, to know whether there is more.
    let mut file = [0u8; 8193];
    let length = read_full(&mut rt.stdin(), &mut file);
    let mut out = TextOut::new(rt.stdout());
    put_listing(&mut out, &file[..length]);
    out.flush();
}

// A function of its own, so that its memory is filled once.
#[inline(never)]
fn put_listing(out: &mut TextOut, file: &[u8]) {
    let mut contents = [0u32; 4680];
    let mut bodies = [0u32; 8192];
    let _ = match read(file, &mut contents, &mut bodies) {
        Ok(table) => write!(out, "{table}"),
        Err(refusal) => writeln!(out, "{refusal}"),
    };
}

// A table, printed as a line of its version and its counts and a line for each row.
#[derive(Clone, Copy)]
struct Table<'a> {
    version: u32,
    rows: &'a [[u32; 4]],
    words: u32,
}

// Why there is no table: the number, and the offset of what is at fault.
#[derive(Clone, Copy)]
struct Refusal {
    number: u32,
    offset: u32,
}

fn read<'a>(
    file: &[u8],
    contents: &'a mut [u32; 4680],
    bodies: &mut [u32; 8192],
) -> Result<Table<'a>, Refusal> {
    if file.len() > 8192 {
        return Err(Refusal {
            number: 1,
            offset: 8192,
        });
    }
    let answer = jdr::read(file, contents, bodies);
    if answer.number != 0 {
        return Err(Refusal {
            number: answer.number,
            offset: answer.offset,
        });
    }
    let rows = &contents[..4 * answer.rows as usize];
    Ok(Table {
        version: bodies[0],
        rows: rows.as_chunks().0,
        words: answer.words,
    })
}

impl Display for Table<'_> {
    fn fmt<W: fmt::Write>(&self, f: &mut fmt::Formatter<W>) -> fmt::Result {
        writeln!(f, "1.{} {} {}", self.version, self.rows.len(), self.words)?;
        for (row, [kind, parent, start, length]) in self.rows.iter().enumerate() {
            put_row(f, row, Kind::from(*kind), [*parent, *start, *length])?;
        }
        Ok(())
    }
}

// A row's line. Its parts are written one by one, since there are many rows, and a hole of `write!` costs as much again as a number.
fn put_row<W: fmt::Write>(
    f: &mut fmt::Formatter<W>,
    row: usize,
    kind: Kind,
    numbers: [u32; 3],
) -> fmt::Result {
    row.fmt(f)?;
    f.write_str(" ")?;
    kind.fmt(f)?;
    for number in numbers {
        f.write_str(" ")?;
        number.fmt(f)?;
    }
    f.write_str("\n")
}

impl Display for Refusal {
    fn fmt<W: fmt::Write>(&self, f: &mut fmt::Formatter<W>) -> fmt::Result {
        write!(f, "refused {} {}", self.number, self.offset)
    }
}
