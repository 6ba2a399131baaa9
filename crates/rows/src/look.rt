// The numbers of a row, in a table's words or a sheet's bytes.
ghost use Rattle.std.specs.Prelude.{◌≡◌, ◌+◌, ◌*◌, ◌≤◌, leb, ltb, length, get_or};
ghost use Rattle.drawing.specs.Limits.{length_limit};
ghost use Rattle.drawing.specs.String.{equal};
ghost use Rattle.drawing.specs.Table.{row, row_width, kind_in, start_in};
ghost use Rattle.rows.specs.Rows.{row_at};

use crate::cells::Cell;
use drawing::row::{PARENT, ROW_WIDTH, SIZE, START};

pub fn has_row<C: Cell>(contents: &[C], row: usize) -> bool
    requires { row ≤ length_limit }
    ensures { result ≡ leb (row_width * row + row_width) (length (C.cells contents.now)) }
{
    ROW_WIDTH * row + ROW_WIDTH <= C::count(contents)
}

// Something stands behind so many rows.
pub fn has_more<C: Cell>(contents: &[C], rows: usize) -> bool
    requires { rows ≤ length_limit }
    ensures { result ≡ ltb (row_width * rows) (length (C.cells contents.now)) }
{
    ROW_WIDTH * rows < C::count(contents)
}

pub fn kind_in<C: Cell>(contents: &[C], row: usize) -> u32
    requires { row_width * row + row_width ≤ length (C.cells contents.now) }
    ensures { result ≡ kind_in (C.cells contents.now) row }
{
    C::number(contents, ROW_WIDTH * row)
}

pub fn start_in<C: Cell>(contents: &[C], row: usize) -> usize
    requires { row_width * row + row_width ≤ length (C.cells contents.now) }
    ensures { result ≡ start_in (C.cells contents.now) row }
{
    C::number(contents, ROW_WIDTH * row + START) as usize
}

pub fn size_in<C: Cell>(contents: &[C], row: usize) -> usize
    requires { row_width * row + row_width ≤ length (C.cells contents.now) }
    ensures { result ≡ get_or (C.cells contents.now) (row_width * row + 3) 0 }
{
    C::number(contents, ROW_WIDTH * row + SIZE) as usize
}

// Whether a row is the one that a walk has met.
pub fn is_row<C: Cell>(
    contents: &[C],
    place: usize,
    kind: u32,
    parent: u32,
    start: usize,
    size: usize,
) -> bool
    requires { row_width * place + row_width ≤ length (C.cells contents.now) }
    ensures { result ≡ equal (row_at (C.cells contents.now) place) (row kind parent start size) }
{
    let at = ROW_WIDTH * place;
    let found = [
        C::number(contents, at) as usize,
        C::number(contents, at + PARENT) as usize,
        C::number(contents, at + START) as usize,
        C::number(contents, at + SIZE) as usize,
    ];
    found == [kind as usize, parent as usize, start, size]
}
