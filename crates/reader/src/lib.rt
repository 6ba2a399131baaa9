// Reading a file into lent memory, by two passes of one descent: the first, into no memory, judges and counts; the second stores, into memory that is
// then known to be enough.
#![tactic(auto)]

pub mod file;
pub mod head;
pub mod objects;

ghost use Rattle.std.specs.Prelude.{◌≡◌, ◌≤◌};
ghost use Rattle.drawing.specs.Limits.{length_limit};
ghost use Rattle.drawing.specs.Answers.{answer};
ghost use Rattle.promises.specs.Promises.{Reads};
ghost use Rattle.reader.specs.ReadLaws.{Judged};

use crate::file::pass_file;
use drawing::Answer;
use drawing::numbers::{ACCEPTED, BODIES_TOO_SHORT, CONTENTS_TOO_SHORT};
use drawing::row::ROW_WIDTH;
use ways::REFUSED;

fn counted(number: u32, at: usize, rows: usize, words: usize) -> Answer
    requires { (at ≤ length_limit) × (rows ≤ length_limit) × (words ≤ length_limit) }
    ensures { result ≡ answer number at rows words }
{
    Answer {
        number,
        offset: at as u32,
        rows: rows as u32,
        words: words as u32,
    }
}

// A file that was found good, with so many rows and words, is stored if there is room.
fn store_counted(
    file: &[u8],
    contents: &mut [u32],
    bodies: &mut [u32],
    at: usize,
    rows: usize,
    words: usize,
) -> Answer
    requires { Judged file.now at rows words }
    ensures { Reads file.now contents.old bodies.old result contents.new bodies.new }
{
    if contents.len() / ROW_WIDTH < rows {
        return counted(CONTENTS_TOO_SHORT, at, rows, words);
    }
    if bodies.len() < words {
        return counted(BODIES_TOO_SHORT, at, rows, words);
    }
    let _ = pass_file(&*file, contents, bodies);
    counted(ACCEPTED, at, rows, words)
}

pub fn read(file: &[u8], contents: &mut [u32], bodies: &mut [u32]) -> Answer
    ensures { Reads file.now contents.old bodies.old result contents.new bodies.new }
{
    let mut no_contents = [0u32; 0];
    let mut no_bodies = [0u32; 0];
    let judged = pass_file(&*file, &mut no_contents, &mut no_bodies);
    let end = judged.at;
    if REFUSED <= end {
        return counted(judged.to as u32, end - REFUSED, 0, 0);
    }
    store_counted(&*file, contents, bodies, end, judged.row, judged.to)
}
