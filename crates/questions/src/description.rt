// The description question.
ghost use Rattle.std.specs.Prelude.{◌≡◌};
ghost use Rattle.drawing.specs.Questions.{no_description};
ghost use Rattle.promises.specs.Promises.{Descriptions};
ghost use Rattle.questions.specs.Asking.{number_of};
ghost use Rattle.questions.specs.DescriptionQuestion.{DescriptionStands};

use crate::asked::{Refusal, asked};
use crate::text::{NO_CHARS, chars_at};
use drawing::limits::V1_2;
use drawing::numbers::ACCEPTED;
use drawing::{DescriptionAnswer, Span};
use places::Part;
use places::row::Row;

// The description stands behind the flow frame flag, which begins the object's end.
fn description_of(row: &Row) -> Span
    ensures { DescriptionStands row.now.contents.now row.now.words.now row.now.version row.now.row result }
{
    if row.version < V1_2 {
        return NO_CHARS;
    }
    let end = row.end();
    let description = row.behind(end, Part::FlowFlag);
    chars_at(row.words, description)
}

// A refusal has no chars.
fn refused(refusal: Refusal) -> DescriptionAnswer
    ensures { result ≡ no_description (number_of refusal) }
{
    DescriptionAnswer {
        number: refusal.number(),
        chars: NO_CHARS,
    }
}

pub fn description(contents: &[u32], words: &[u32], row: u32) -> DescriptionAnswer
    ensures { Descriptions contents.now words.now row result }
{
    match asked(contents, words, row) {
        Ok(row) => DescriptionAnswer {
            number: ACCEPTED,
            chars: description_of(&row),
        },
        Err(refusal) => refused(refusal),
    }
}
