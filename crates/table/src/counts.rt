// The counts of what was checked, and the answers that give them.
ghost use Rattle.std.specs.Prelude.{◌≡◌};
ghost use Rattle.drawing.specs.Answers.{answer};

use drawing::Answer;

// The length of a file or a sheet, and the counts of rows and words of its table.
#[derive(Clone, Copy)]
pub struct Counts {
    pub length: u32,
    pub rows: u32,
    pub words: u32,
}

impl Counts {
    // These counts, with a number.
    pub fn answer(self, number: u32) -> Answer
        ensures { result ≡ answer number self.length self.rows self.words }
    {
        Answer {
            number,
            offset: self.length,
            rows: self.rows,
            words: self.words,
        }
    }
}

// A number at an offset, with no counts.
pub fn refused(number: u32, offset: u32) -> Answer
    ensures { result ≡ answer number offset 0 0 }
{
    Answer {
        number,
        offset,
        rows: 0,
        words: 0,
    }
}
