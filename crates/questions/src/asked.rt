// The row that a question is about, and why it may get no answer.
ghost use Rattle.std.specs.Prelude.{◌≡◌, MatchResult};
ghost use Rattle.questions.specs.Asking.{AskedRow, Refuses, number_of};

use drawing::numbers::{NO_PART, NO_ROW, NO_TABLE, NOT_A_NUMBER};
use places::row::{Row, row_of};
use table::answers::counted;

#[derive(Clone, Copy, Debug, PartialEq, Eq)]
pub enum Refusal {
    // the runs are no table
    NoTable,
    // the table has no such row
    NoRow,
    // the row's object has no such part
    NoPart,
    // a coordinate of its outline is not a number
    NotANumber,
}

impl Refusal {
    pub fn number(self) -> u32
        ensures { result ≡ number_of self }
    {
        match self {
            Refusal::NoTable => NO_TABLE,
            Refusal::NoRow => NO_ROW,
            Refusal::NoPart => NO_PART,
            Refusal::NotANumber => NOT_A_NUMBER,
        }
    }
}

// The table is checked first, and then whether it has the row.
pub fn asked<'a>(contents: &'a [u32], words: &'a [u32], row: u32) -> Result<Row<'a>, Refusal>
    ensures { MatchResult result
        (λ r. AskedRow contents.now words.now row r.contents.now r.words.now r.version r.row)
        (Refuses contents.now words.now row) }
{
    let Some(counts) = counted(contents, words) else {
        return Err(Refusal::NoTable);
    };
    if counts.rows <= row {
        return Err(Refusal::NoRow);
    }
    Ok(row_of(contents, words, words[0], row as usize))
}
