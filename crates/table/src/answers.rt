// Checking any two runs of words, and writing the file of a table.
ghost use Rattle.promises.specs.Promises.{Checks, Writes};
ghost use Rattle.table.specs.Counting.{counts_answer};

use crate::counts::{Counts, refused};
use drawing::Answer;
use drawing::limits::LENGTH_LIMIT;
use drawing::numbers::{ACCEPTED, NO_TABLE, OUTPUT_TOO_SHORT};
use drawing::row::ROW_WIDTH;
use from_table::FromTable;
use table_walk::file::walk_table;
use ways::REFUSED;

// The counts of a table, where these are one. A run that is too long for any acceptable file is not looked into.
pub fn counted(contents: &[u32], words: &[u32]) -> Option<Counts>
    ensures { Checks contents.now words.now (counts_answer result) }
{
    if ROW_WIDTH * LENGTH_LIMIT < contents.len() || LENGTH_LIMIT < words.len() {
        return None;
    }
    let mut no_file = [0u8; 0];
    let walked = walk_table::<u32, FromTable>(&*contents, &*words, &mut no_file);
    if REFUSED <= walked.at {
        return None;
    }
    Some(Counts {
        length: walked.to as u32,
        rows: walked.row as u32,
        words: walked.at as u32,
    })
}

pub fn check(contents: &[u32], words: &[u32]) -> Answer
    ensures { Checks contents.now words.now result }
{
    match counted(contents, words) {
        Some(counts) => counts.answer(ACCEPTED),
        None => refused(NO_TABLE, 0),
    }
}

// The file's length is known before its first byte is stored.
pub fn write(contents: &[u32], words: &[u32], file: &mut [u8]) -> Answer
    ensures { Writes contents.now words.now file.old result file.new }
{
    let Some(counts) = counted(contents, words) else {
        return refused(NO_TABLE, 0);
    };
    if file.len() < counts.length as usize {
        return refused(OUTPUT_TOO_SHORT, counts.length);
    }
    let _ = walk_table::<u32, FromTable>(&*contents, &*words, file);
    counts.answer(ACCEPTED)
}
