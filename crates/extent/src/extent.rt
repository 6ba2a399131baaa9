// The question about the box around a row's outline.
ghost use Rattle.std.specs.Prelude.{◌≡◌};
ghost use Rattle.promises.specs.Promises.{Extents};
ghost use Rattle.drawing.specs.Computed.{extent_answer, extent_value};
ghost use Rattle.drawing.specs.Extent.{no_extent};
ghost use Rattle.extent.specs.ExtentQuestion.{extent_found};
ghost use Rattle.questions.specs.Asking.{number_of};

use crate::outline::{has_outline, outline_place};
use crate::segments::outline_extent;
use drawing::numbers::ACCEPTED;
use drawing::{Extent, ExtentAnswer};
use questions::asked::{Refusal, asked};

fn extent_of(contents: &[u32], words: &[u32], row: u32) -> Result<Extent, Refusal>
    ensures { extent_found result ≡ extent_answer contents.now words.now row }
{
    let row = asked(contents, words, row)?;
    if has_outline(row.kind()) {
        let at = outline_place(&row);
        let Some(extent) = outline_extent(row.words, at, row.version) else {
            return Err(Refusal::NotANumber);
        };
        return Ok(extent);
    }
    Err(Refusal::NoPart)
}

// A refusal has a box of positive zeros.
fn refused(refusal: Refusal) -> ExtentAnswer
    ensures { result ≡ extent_value (no_extent (number_of refusal)) }
{
    ExtentAnswer {
        number: refusal.number(),
        extent: Extent {
            left: 0.0,
            bottom: 0.0,
            right: 0.0,
            top: 0.0,
        },
    }
}

pub fn extent(contents: &[u32], words: &[u32], row: u32) -> ExtentAnswer
    ensures { Extents contents.now words.now row result }
{
    match extent_of(contents, words, row) {
        Ok(extent) => ExtentAnswer {
            number: ACCEPTED,
            extent,
        },
        Err(refusal) => refused(refusal),
    }
}
