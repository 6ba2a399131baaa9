// The paint question.
ghost use Rattle.std.specs.Prelude.{◌≡◌, MatchOption};
ghost use Rattle.promises.specs.Promises.{Paints};
ghost use Rattle.drawing.specs.Computed.{paint_answer};
ghost use Rattle.drawing.specs.declared.PaintAnswer.TheVariants.{Refused};
ghost use Rattle.questions.specs.Asking.{number_of};
ghost use Rattle.questions.specs.PaintQuestion.{paint_found, Unpainted, PaintedAt};

use crate::asked::{Refusal, asked};
use crate::paint_words::paint_at;
use crate::text_places::{has_text, text_places};
use drawing::row::PATH_KIND;
use drawing::{PaintAnswer, Which};
use places::Part;
use places::row::Row;

// Where this paint stands, if the object has one. A path begins with its line paint, and its fill paint stands behind that.
fn paint_place(row: &Row, which: Which) -> Option<usize>
    ensures { MatchOption result
        (Unpainted row.now.contents.now row.now.words.now row.now.version row.now.row which)
        (PaintedAt row.now.contents.now row.now.words.now row.now.version row.now.row which) }
{
    let kind = row.kind();
    match which {
        Which::Line if kind == PATH_KIND => Some(row.start()),
        Which::Fill if kind == PATH_KIND => Some(row.behind(row.start(), Part::Paint)),
        Which::Text if has_text(kind) => Some(text_places(row).paint),
        _ => None,
    }
}

fn paint_of(contents: &[u32], words: &[u32], row: u32, which: Which) -> Result<PaintAnswer, Refusal>
    ensures { paint_found result ≡ paint_answer contents.now words.now row which }
{
    let row = asked(contents, words, row)?;
    let Some(at) = paint_place(&row, which) else {
        return Err(Refusal::NoPart);
    };
    Ok(paint_at(row.words, at, row.version))
}

fn refused(refusal: Refusal) -> PaintAnswer
    ensures { result ≡ Refused (number_of refusal) }
{
    PaintAnswer::Refused(refusal.number())
}

pub fn paint(contents: &[u32], words: &[u32], row: u32, which: Which) -> PaintAnswer
    ensures { Paints contents.now words.now row which result }
{
    match paint_of(contents, words, row, which) {
        Ok(paint) => paint,
        Err(refusal) => refused(refusal),
    }
}
