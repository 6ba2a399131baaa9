// Where the parts of a text stand, its own or that of a text along a path.
ghost use Rattle.std.specs.Prelude.{◌≡◌};
ghost use Rattle.drawing.specs.Table.{start_in};
ghost use Rattle.questions.specs.TextQuestion.{has_text, InText, InTextPath, TextPlacesOf};

use drawing::row::{TEXT_KIND, TEXT_PATH_KIND};
use places::Part;
use places::row::Row;

#[derive(Clone, Copy)]
pub struct TextPlaces {
    pub paint: usize,
    // the flag and the LaTeX fields
    pub latex: usize,
    // the string
    pub chars: usize,
}

// An object of this kind has a text.
pub fn has_text(kind: u32) -> bool
    ensures { result ≡ has_text kind }
{
    matches!(kind, TEXT_KIND | TEXT_PATH_KIND)
}

// A text begins with its font; its paint stands behind the LaTeX fields.
fn in_text(row: &Row) -> TextPlaces
    ensures { InText row.now.words.now row.now.version (start_in row.now.contents.now row.now.row) result }
{
    let start = row.start();
    let latex = row.behind(start, Part::Font);
    let paint = row.behind(latex, Part::Latex);
    let chars = row.behind(paint, Part::Paint);
    TextPlaces {
        paint,
        latex,
        chars,
    }
}

// A text along a path begins with its paint.
fn in_text_path(row: &Row) -> TextPlaces
    ensures { InTextPath row.now.words.now row.now.version (start_in row.now.contents.now row.now.row) result }
{
    let paint = row.start();
    let style = row.behind(paint, Part::Paint);
    let latex = row.behind(style, Part::Font);
    let chars = row.behind(latex, Part::Latex);
    TextPlaces {
        paint,
        latex,
        chars,
    }
}

pub fn text_places(row: &Row) -> TextPlaces
    ensures { TextPlacesOf row.now.contents.now row.now.words.now row.now.version row.now.row result }
{
    if row.kind() == TEXT_PATH_KIND {
        return in_text_path(row);
    }
    in_text(row)
}
