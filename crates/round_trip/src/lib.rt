// Demand 2 of the calls themselves: what is read comes back when it is written, with each true flag made 1, what is written comes back when it is read, and a
// table is checked with 0 exactly when some file gives it. And the text to show of a row, found by two calls. `sheet_trips` has round trips of
// sheets, `cuts` a file that is given to a session in pieces.
#![tactic(auto)]

ghost use Rattle.std.specs.Prelude.{◌≡◌, ◌+◌, ◌≤◌, length, take, drop};
ghost use Rattle.round_trip.specs.RoundTrip.{FileComesBack, TableComesBack, Checked, ShowsText};

use drawing::Answer;

pub mod cuts;
pub mod sheet_trips;

// The answers of two calls, one after the other; the second is the first's where that refused.
#[derive(Clone, Copy)]
pub struct Both {
    pub first: Answer,
    pub second: Answer,
}

// Reads a file and writes it again.
pub fn read_then_write(
    file: &[u8],
    contents: &mut [u32],
    bodies: &mut [u32],
    copy: &mut [u8],
) -> Both
    ensures { FileComesBack file.now contents.old bodies.old copy.old contents.new bodies.new copy.new result }
{
    let read = jdr::read(file, contents, bodies);
    if read.number != 0 {
        return Both {
            first: read,
            second: read,
        };
    }
    let row_words = 4 * read.rows as usize;
    let body_words = read.words as usize;
    let written = jdr::write(&contents[..row_words], &bodies[..body_words], copy);
    Both {
        first: read,
        second: written,
    }
}

// Writes a table and reads it again.
pub fn write_then_read(
    contents: &[u32],
    bodies: &[u32],
    file: &mut [u8],
    rows: &mut [u32],
    words: &mut [u32],
) -> Both
    ensures { TableComesBack contents.now bodies.now file.old rows.old words.old file.new rows.new words.new result }
{
    let written = jdr::write(contents, bodies, file);
    if written.number != 0 {
        return Both {
            first: written,
            second: written,
        };
    }
    let length = written.offset as usize;
    let read = jdr::read(&file[..length], rows, words);
    Both {
        first: written,
        second: read,
    }
}

// A table that is checked with 0 is given by some file, and only such a table is.
pub fn checked(contents: &[u32], bodies: &[u32]) -> Answer
    ensures { Checked contents.now bodies.now result }
{
    jdr::check(contents, bodies)
}

// So many words from a place on.
fn run<'a>(words: &'a [u32], start: u32, count: u32) -> &'a [u32]
    requires { start + count ≤ length words.now }
    ensures { result.now ≡ take count (drop start words.now) }
{
    let from = start as usize;
    let to = from + count as usize;
    &words[from..to]
}

// The text to show of a row, found by the text question and taken from the bodies; no chars where there is no such text.
pub fn shown_text<'a>(contents: &[u32], bodies: &'a [u32], row: u32) -> &'a [u32]
    ensures { ShowsText contents.now bodies.now row result.now }
{
    let asked = jdr::text(contents, bodies, row);
    if asked.number != 0 {
        return &bodies[..0];
    }
    let alternative = asked.alternative;
    let plain = asked.text;
    jdr::shown(
        run(bodies, alternative.start, alternative.length),
        run(bodies, plain.start, plain.length),
    )
}
