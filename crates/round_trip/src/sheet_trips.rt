// The round trips of sheets, and demand 3 of the table that a sheet holds.
ghost use Rattle.round_trip.specs.SheetTrip.{SheetComesBack, TableComesBackBySheet, ListsSheet};

use crate::Both;

// Reads a sheet and writes it again.
pub fn read_then_write(
    sheet: &[u8],
    contents: &mut [u32],
    bodies: &mut [u32],
    copy: &mut [u8],
) -> Both
    ensures { SheetComesBack sheet.now contents.old bodies.old copy.old contents.new bodies.new copy.new result }
{
    let read = jdr::sheet_read(sheet, contents, bodies);
    if read.number != 0 {
        return Both {
            first: read,
            second: read,
        };
    }
    let row_words = 4 * read.rows as usize;
    let body_words = read.words as usize;
    let written = jdr::sheet_write(&contents[..row_words], &bodies[..body_words], copy);
    Both {
        first: read,
        second: written,
    }
}

// Writes a table as a sheet and reads it again.
pub fn write_then_read(
    contents: &[u32],
    bodies: &[u32],
    sheet: &mut [u8],
    rows: &mut [u32],
    words: &mut [u32],
) -> Both
    ensures { TableComesBackBySheet contents.now bodies.now sheet.old rows.old words.old sheet.new rows.new words.new result }
{
    let written = jdr::sheet_write(contents, bodies, sheet);
    if written.number != 0 {
        return Both {
            first: written,
            second: written,
        };
    }
    let length = written.offset as usize;
    let read = jdr::sheet_read(&sheet[..length], rows, words);
    Both {
        first: written,
        second: read,
    }
}

// Reads a sheet and lists the objects with a label.
pub fn read_then_list(
    sheet: &[u8],
    contents: &mut [u32],
    bodies: &mut [u32],
    label: &[u16],
    entries: &mut [u32],
) -> Both
    ensures { ListsSheet sheet.now contents.old bodies.old label.now entries.old contents.new bodies.new entries.new result }
{
    let read = jdr::sheet_read(sheet, contents, bodies);
    if read.number != 0 {
        return Both {
            first: read,
            second: read,
        };
    }
    let row_words = 4 * read.rows as usize;
    let body_words = read.words as usize;
    let listed = jdr::list(
        &contents[..row_words],
        &bodies[..body_words],
        label,
        entries,
    );
    Both {
        first: read,
        second: listed,
    }
}
