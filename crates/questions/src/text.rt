// The text question.
ghost use Rattle.std.specs.Prelude.{◌≡◌, ◌<◌, ◌≤◌, length};
ghost use Rattle.promises.specs.Promises.{Texts};
ghost use Rattle.drawing.specs.Computed.{text_answer, text_value};
ghost use Rattle.drawing.specs.Limits.{length_limit};
ghost use Rattle.drawing.specs.Choices.{if_flag};
ghost use Rattle.drawing.specs.Questions.{no_text};
ghost use Rattle.drawing.specs.Text as T;
ghost use Rattle.places.specs.Places.{Holds};
ghost use Rattle.questions.specs.Asking.{number_of};
ghost use Rattle.questions.specs.TextQuestion.{CharsRead, AlternativeRead, text_found};

use crate::asked::{Refusal, asked};
use crate::text_places::{has_text, text_places};
use drawing::numbers::ACCEPTED;
use drawing::{Span, TextAnswer};
use places::Part;
use places::behind::behind;

pub const NO_CHARS: Span = Span {
    start: 0,
    length: 0,
};

// The chars of the string that stands here, behind their number.
pub fn chars_at(words: &[u32], at: usize) -> Span
    requires { (at < length words.now) × (length words.now ≤ length_limit) }
    ensures { CharsRead words.now at result }
{
    Span {
        start: (at + 1) as u32,
        length: words[at],
    }
}

// The alternative's chars, if the flag says that there are LaTeX fields.
fn alternative_chars(words: &[u32], at: usize, version: u32) -> Span
    requires { Holds (if_flag T.latex) words.now at }
    ensures { AlternativeRead words.now at result }
{
    if words[at] == 1 {
        let alternative = behind(words, at + 1, version, Part::BeforeAlternative);
        return chars_at(words, alternative);
    }
    NO_CHARS
}

// The chars of the alternative, and those of the text.
fn text_of(contents: &[u32], words: &[u32], row: u32) -> Result<(Span, Span), Refusal>
    ensures { text_found result ≡ text_answer contents.now words.now row }
{
    let row = asked(contents, words, row)?;
    if has_text(row.kind()) {
        let places = text_places(&row);
        let alternative = alternative_chars(row.words, places.latex, row.version);
        return Ok((alternative, chars_at(row.words, places.chars)));
    }
    Err(Refusal::NoPart)
}

// A refusal has no chars.
fn refused(refusal: Refusal) -> TextAnswer
    ensures { result ≡ text_value (no_text (number_of refusal)) }
{
    TextAnswer {
        number: refusal.number(),
        alternative: NO_CHARS,
        text: NO_CHARS,
    }
}

pub fn text(contents: &[u32], words: &[u32], row: u32) -> TextAnswer
    ensures { Texts contents.now words.now row result }
{
    match text_of(contents, words, row) {
        Ok((alternative, text)) => TextAnswer {
            number: ACCEPTED,
            alternative,
            text,
        },
        Err(refusal) => refused(refusal),
    }
}
