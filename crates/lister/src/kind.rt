// What a row's object is, and the letter that tells it.
use drawing::row::{BITMAP_KIND, GROUP_KIND, PATH_KIND, TEXT_KIND};
use std::fmt;

#[derive(Clone, Copy)]
pub enum Kind {
    Group,
    Path,
    Text,
    Bitmap,
    TextPath,
}

// A row of a table that was read has one of five kinds, so a kind that is none of the first four is the fifth.
impl From<u32> for Kind {
    fn from(kind: u32) -> Kind {
        match kind {
            GROUP_KIND => Kind::Group,
            PATH_KIND => Kind::Path,
            TEXT_KIND => Kind::Text,
            BITMAP_KIND => Kind::Bitmap,
            _ => Kind::TextPath,
        }
    }
}

impl fmt::Display for Kind {
    fn fmt<W: fmt::Write>(&self, f: &mut fmt::Formatter<W>) -> fmt::Result {
        f.write_str(match self {
            Kind::Group => "G",
            Kind::Path => "P",
            Kind::Text => "T",
            Kind::Bitmap => "I",
            Kind::TextPath => "X",
        })
    }
}
