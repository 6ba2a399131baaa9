// Reading a sheet into a table: it is judged where it lies, and copied where there is room.
ghost use Rattle.std.specs.Prelude.{◌≡◌, ◌*◌, ◌≤◌, length};
ghost use Rattle.promises.specs.Promises.{ReadsSheet};
ghost use Rattle.sheets.specs.Judging.{Counted};
ghost use Rattle.sheets.specs.Copying.{Copies};

use crate::judge::{bytes_before, judge};
use crate::words::copy_words;
use drawing::Answer;
use drawing::numbers::{ACCEPTED, BODIES_TOO_SHORT, CONTENTS_TOO_SHORT, NO_SHEET};
use drawing::row::ROW_WIDTH;
use drawing::sheet::NUMBER_BYTES;
use memory::store::store_fields;
use table::counts::{Counts, refused};

// The contents and the bodies of a sheet, into memory that has room for them.
fn copy(sheet: &[u8], contents: &mut [u32], bodies: &mut [u32], rows: usize, words: usize)
    requires counted { Counted sheet.now rows words }
    requires rows_in_bounds { (4 * rows ≤ length contents.old) × (words ≤ length bodies.old) }
    ensures { Copies sheet.now rows words contents.old contents.new bodies.old bodies.new }
{
    let first = 2 * NUMBER_BYTES;
    let before = bytes_before(rows);
    store_fields(&*sheet, first, contents, 0, NUMBER_BYTES, ROW_WIDTH * rows);
    copy_words(&*sheet, before, bodies, 0, words);
}

// A sheet with these counts.
fn stored(sheet: &[u8], contents: &mut [u32], bodies: &mut [u32], counts: Counts) -> Answer
    requires { Counted sheet.now counts.rows counts.words × (counts.length ≡ length sheet.now) }
    ensures { ReadsSheet sheet.now contents.old bodies.old result contents.new bodies.new }
{
    let rows = counts.rows as usize;
    let words = counts.words as usize;
    if contents.len() / ROW_WIDTH < rows {
        return counts.answer(CONTENTS_TOO_SHORT);
    }
    if bodies.len() < words {
        return counts.answer(BODIES_TOO_SHORT);
    }
    copy(sheet, contents, bodies, rows, words);
    counts.answer(ACCEPTED)
}

pub fn read(sheet: &[u8], contents: &mut [u32], bodies: &mut [u32]) -> Answer
    ensures { ReadsSheet sheet.now contents.old bodies.old result contents.new bodies.new }
{
    match judge(sheet) {
        Some(counts) => stored(sheet, contents, bodies, counts),
        None => refused(NO_SHEET, 0),
    }
}
