// Writing a table's sheet: the table is checked first, and its counts tell the sheet's length.
ghost use Rattle.std.specs.Prelude.{◌≤◌, length};
ghost use Rattle.drawing.specs.Sheet.{number_bytes};
ghost use Rattle.drawing.specs.SheetDrawing.{sheet_length};
ghost use Rattle.promises.specs.Promises.{WritesSheet};
ghost use Rattle.ways.specs.Written.{Writes};
ghost use Rattle.sheets.specs.Packing.{Tabled, sheet_in};

use crate::judge::bytes_before;
use drawing::Answer;
use drawing::numbers::{ACCEPTED, NO_TABLE, OUTPUT_TOO_SHORT};
use drawing::row::ROW_WIDTH;
use drawing::sheet::{NUMBER_BYTES, WORD_BYTES};
use format::encode::put_char;
use memory::write::write_fields;
use table::answers::counted;
use table::counts::{Counts, refused};

// The counts, the contents and the bodies, where there is room for them.
fn pack(contents: &[u32], bodies: &[u32], sheet: &mut [u8], rows: u32, words: u32)
    requires tabled { Tabled contents.now bodies.now rows words }
    requires words_in_bounds { sheet_length number_bytes rows words ≤ length sheet.old }
    ensures { Writes 0 (sheet_in rows words contents.now bodies.now) sheet.old sheet.new }
{
    put_char(sheet, 0, rows);
    put_char(sheet, NUMBER_BYTES, words);
    let first = 2 * NUMBER_BYTES;
    let before = bytes_before(rows as usize);
    write_fields(
        &*contents,
        0,
        sheet,
        first,
        NUMBER_BYTES,
        ROW_WIDTH * rows as usize,
    );
    write_fields(&*bodies, 0, sheet, before, WORD_BYTES, words as usize);
}

pub fn write(contents: &[u32], bodies: &[u32], sheet: &mut [u8]) -> Answer
    ensures { WritesSheet contents.now bodies.now sheet.old result sheet.new }
{
    let Some(counts) = counted(contents, bodies) else {
        return refused(NO_TABLE, 0);
    };
    let needed = bytes_before(counts.rows as usize) + WORD_BYTES * counts.words as usize;
    if sheet.len() < needed {
        return refused(OUTPUT_TOO_SHORT, needed as u32);
    }
    pack(contents, bodies, sheet, counts.rows, counts.words);
    let packed = Counts {
        length: needed as u32,
        rows: counts.rows,
        words: counts.words,
    };
    packed.answer(ACCEPTED)
}
