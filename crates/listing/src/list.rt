// Listing the rows of a table with a label.
ghost use Rattle.std.specs.Prelude.{◌≡◌, ◌^◌, ◌<◌};
ghost use Rattle.drawing.specs.Answers.{answer};
ghost use Rattle.promises.specs.Promises.{Lists};

use crate::entries::entries;
use drawing::Answer;
use drawing::numbers::{ACCEPTED, LIST_TOO_SHORT, NO_TABLE};
use table::answers::counted;
use table::counts::{Counts, refused};

// So many entries are stored.
fn listed(count: usize) -> Answer
    requires { count < 2 ^ 32 }
    ensures { result ≡ answer 0 0 count 0 }
{
    let counts = Counts {
        length: 0,
        rows: count as u32,
        words: 0,
    };
    counts.answer(ACCEPTED)
}

// The table is checked, and it is known that there is room for the entries, before the first of them is stored.
pub fn list(contents: &[u32], words: &[u32], label: &[u16], room: &mut [u32]) -> Answer
    ensures { Lists contents.now words.now label.now room.old result room.new }
{
    let Some(counts) = counted(contents, words) else {
        return refused(NO_TABLE, 0);
    };
    let rows = counts.rows as usize;
    let version = words[0];
    // There are no more entries than rows, so with room for all rows none need be counted first.
    if rows <= room.len() {
        return listed(entries(contents, words, label, room, rows, version));
    }
    let mut no_list = [0u32; 0];
    let count = entries(contents, words, label, &mut no_list, rows, version);
    if room.len() < count {
        return refused(LIST_TOO_SHORT, count as u32);
    }
    entries(contents, words, label, room, rows, version);
    listed(count)
}
