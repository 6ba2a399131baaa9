// Where an outline stands, that of a path or that of a text along a path.
ghost use Rattle.std.specs.Prelude.{◌≡◌};
ghost use Rattle.drawing.specs.Table.{start_in};
ghost use Rattle.extent.specs.ExtentQuestion.{has_outline, InPath, InTextPath, OutlineOf};

use drawing::row::{PATH_KIND, TEXT_PATH_KIND};
use places::Part;
use places::row::Row;

// An object of this kind has an outline.
pub fn has_outline(kind: u32) -> bool
    ensures { result ≡ has_outline kind }
{
    matches!(kind, PATH_KIND | TEXT_PATH_KIND)
}

// A path's outline stands behind its two paints and its line style.
fn in_path(row: &Row) -> usize
    ensures { InPath row.now.words.now row.now.version (start_in row.now.contents.now row.now.row) result }
{
    let start = row.start();
    let fill = row.behind(start, Part::Paint);
    let style = row.behind(fill, Part::Paint);
    row.behind(style, Part::LineStyle)
}

// That of a text along a path stands behind its paint, its style and its string.
fn in_text_path(row: &Row) -> usize
    ensures { InTextPath row.now.words.now row.now.version (start_in row.now.contents.now row.now.row) result }
{
    let start = row.start();
    let style = row.behind(start, Part::Paint);
    let latex = row.behind(style, Part::Font);
    let chars = row.behind(latex, Part::Latex);
    row.behind(chars, Part::Chars)
}

pub fn outline_place(row: &Row) -> usize
    ensures { OutlineOf row.now.contents.now row.now.words.now row.now.version row.now.row result }
{
    if row.kind() == TEXT_PATH_KIND {
        return in_text_path(row);
    }
    in_path(row)
}
