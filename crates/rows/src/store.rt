// A row stored.
ghost use Rattle.std.specs.Prelude.{◌≡◌, ◌*◌, ◌≤◌};
ghost use Rattle.format.specs.Pass.{put};
ghost use Rattle.drawing.specs.Limits.{length_limit};
ghost use Rattle.drawing.specs.Table.{row, row_width};

use drawing::row::{PARENT, ROW_WIDTH, SIZE, START};

// A row is stored whole, where it fits.
pub fn put_row(
    contents: &mut [u32],
    place: usize,
    kind: u32,
    parent: u32,
    start: usize,
    size: usize,
)
    requires { (place ≤ length_limit) × (start ≤ length_limit) × (size ≤ length_limit) }
    ensures { contents.new ≡ put (row_width * place) (row kind parent start size) contents.old }
{
    let at = ROW_WIDTH * place;
    if contents.len() < at + ROW_WIDTH {
        return;
    }
    contents[at] = kind;
    contents[at + PARENT] = parent;
    contents[at + START] = start as u32;
    contents[at + SIZE] = size as u32;
}
