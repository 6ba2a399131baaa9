// The rows of a table with a label, in their order, stored where there is room for them.
ghost use Rattle.std.specs.Prelude.{◌≡◌, [], ◌∷◌, ◌^◌, ◌<◌};
ghost use Rattle.format.specs.Pass.{put};
ghost use Rattle.places.specs.Rows.{TableHere};
ghost use Rattle.listing.specs.Entries.{Enters};

use crate::label::is_labelled;
use places::row::row_of;

fn store_entry(room: &mut [u32], place: usize, row: usize)
    requires { row < 2 ^ 32 }
    ensures { room.new ≡ put place (row ∷ []) room.old }
{
    if place < room.len() {
        room[place] = row as u32;
    }
}

pub fn entries(
    contents: &[u32],
    words: &[u32],
    label: &[u16],
    room: &mut [u32],
    rows: usize,
    version: u32,
) -> usize
    requires { TableHere contents.now words.now rows version }
    ensures { Enters contents.now words.now label.now room.old room.new result }
{
    let mut count = 0;
    for row in 0..rows {
        if is_labelled(&row_of(contents, words, version, row), label) {
            store_entry(room, count, row);
            count += 1;
        }
    }
    count
}
