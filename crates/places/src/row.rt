// A row of a table, with the table: what the row says, and where the parts of its object's body stand.
ghost use Rattle.std.specs.Prelude.{◌≡◌, ◌+◌, ◌*◌, ◌≤◌, length, get_or};
ghost use Rattle.drawing.specs.Table.{row_width, kind_in, start_in};
ghost use Rattle.places.specs.Parts.{layout_of};
ghost use Rattle.places.specs.Places.{Passed};
ghost use Rattle.places.specs.Rows.{HasRow, EndIs};

use crate::Part;
use crate::behind::behind;
use drawing::row::GROUP_KIND;
use rows::kind::letter_of;
use rows::look::{kind_in, size_in, start_in};

// It is the row of some object. That is said without the object, since a group's words tell how many members it has, and not which.
#[derive(Clone, Copy)]
pub struct Row<'a> {
    pub contents: &'a [u32],
    pub words: &'a [u32],
    pub version: u32,
    pub row: usize,
    pub ghost stands: { ∥ HasRow contents.now words.now version row ∥₁ },
}

impl Row<'_> {
    pub fn kind(&self) -> u32
        ensures { result ≡ kind_in self.now.contents.now self.now.row }
    {
        kind_in(self.contents, self.row)
    }

    // Where the body begins.
    pub fn start(&self) -> usize
        ensures is { result ≡ start_in self.now.contents.now self.now.row }
        ensures inside { result ≤ length self.now.words.now }
    {
        start_in(self.contents, self.row)
    }

    // How many words the body has.
    pub fn size(&self) -> usize
        ensures is { result ≡ get_or self.now.contents.now (row_width * self.now.row + 3) 0 }
        ensures inside { start_in self.now.contents.now self.now.row + result ≤ length self.now.words.now }
    {
        size_in(self.contents, self.row)
    }

    // The place behind a part that stands here. Where none stands, it is here.
    pub fn behind(&self, at: usize, part: Part) -> usize
        requires { at ≤ length self.now.words.now }
        ensures { Passed (layout_of part self.now.version) self.now.words.now at result }
    {
        behind(self.words, at, self.version, part)
    }

    // Where the object's end begins: behind a group's count, or behind a leaf's other fields.
    pub fn end(&self) -> usize
        ensures is { EndIs self.now.contents.now self.now.words.now self.now.version self.now.row result }
        ensures inside { result ≤ length self.now.words.now }
    {
        let kind = self.kind();
        let start = self.start();
        if kind == GROUP_KIND {
            return self.behind(start, Part::Count);
        }
        self.behind(start, Part::Leaf(letter_of(kind)))
    }
}

// The row with this number. (A function of its own, since one with a loop would lose what is known of the row.)
pub fn row_of<'a>(contents: &'a [u32], words: &'a [u32], version: u32, row: usize) -> Row<'a>
    requires { HasRow contents.now words.now version row }
    ensures contents_are { result.contents.now ≡ contents.now }
    ensures words_are { result.words.now ≡ words.now }
    ensures version_is { result.version ≡ version }
    ensures row_is { result.row ≡ row }
{
    Row {
        contents,
        words,
        version,
        row,
    }
}
