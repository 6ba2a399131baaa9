// Whether bytes are a sheet: its counts tell its length, and the table in it is walked where it lies.
ghost use Rattle.std.specs.Prelude.{◌≡◌, ◌+◌, ◌*◌, ◌≤◌, length};
ghost use Rattle.drawing.specs.Limits.{length_limit};
ghost use Rattle.drawing.specs.Sheet.{number_bytes, word_bytes};
ghost use Rattle.drawing.specs.SheetDrawing.{bytes_before};
ghost use Rattle.sheets.specs.Judging.{Judges, HoldsTable};

use drawing::row::ROW_WIDTH;
use drawing::sheet::{NUMBER_BYTES, WORD_BYTES};
use format::decode::char_at;
use from_sheet::FromSheet;
use table::counts::Counts;
use table_walk::file::walk_table;
use ways::REFUSED;

// The bytes before the bodies.
pub fn bytes_before(rows: usize) -> usize
    requires { rows ≤ length_limit }
    ensures { result ≡ bytes_before number_bytes rows }
{
    2 * NUMBER_BYTES + NUMBER_BYTES * (ROW_WIDTH * rows)
}

// The contents and the bodies, which begin at a place, are the table of some drawing.
fn holds_table(sheet: &[u8], rows: usize, before: usize) -> bool
    requires { (rows ≤ length_limit) × (before ≡ bytes_before number_bytes rows) × (before ≤ length sheet.now) × (length sheet.now ≤ before + word_bytes * length_limit) }
    ensures { HoldsTable sheet.now rows result }
{
    let first = 2 * NUMBER_BYTES;
    let mut no_file = [0u8; 0];
    let walked = walk_table::<u8, FromSheet>(&sheet[first..before], &sheet[before..], &mut no_file);
    walked.at < REFUSED
}

// The counts of a sheet, where these bytes are one.
pub fn judge(sheet: &[u8]) -> Option<Counts>
    ensures { Judges sheet.now result }
{
    if sheet.len() < 2 * NUMBER_BYTES {
        return None;
    }
    let rows = char_at(sheet, 0);
    let words = char_at(sheet, NUMBER_BYTES);
    let before = bytes_before(rows as usize);
    if sheet.len() != before + WORD_BYTES * words as usize {
        return None;
    }
    if holds_table(sheet, rows as usize, before) {
        return Some(Counts {
            length: sheet.len() as u32,
            rows,
            words,
        });
    }
    None
}
