// The calls of the library, for other programs: each with its contract, which decides its answer and all lent memory for every input. What each
// promises stands in crates/promises/specs/Promises.antt, from top to bottom, and for those on a session in crates/pieces/specs/SessionPromises.antt. The numbers
// of answers are 01's.
#![tactic(auto)]

ghost use Rattle.promises.specs.Promises.{Reads, Checks, Writes, WritesSheet, ReadsSheet, Lists, Paints, Texts, Descriptions, Extents};
ghost use Rattle.std.specs.Prelude.{◌≡◌, length};
ghost use Rattle.drawing.specs.Questions.{shown};
ghost use Rattle.pieces.specs.SessionPromises.{Opens, Pieces, Verdicts};

pub use drawing::{
    Answer, DescriptionAnswer, Extent, ExtentAnswer, PaintAnswer, Span, TextAnswer, Which,
};
pub use pieces::Session;
use session::piece::pieced;
use session::verdict::{judged, opened};

// Reads a file into a table: contents, a row of four words an object, and bodies. In a flag any byte but 0 is true, and its word is 1. Number 0 with the
// file's length and the counts of rows and words; 1 with 65,535; 2 to 12, never 5, with the offset of the field at fault; 13 with that of the first byte behind
// the drawing; 14 or 15, where there is no room, with the file's length and the counts needed. Memory changes only with number 0.
pub fn read(file: &[u8], contents: &mut [u32], bodies: &mut [u32]) -> Answer
    ensures { Reads file.now contents.old bodies.old result contents.new bodies.new }
{
    reader::read(file, contents, bodies)
}

// Whether two runs of words are a table that some acceptable file gives. Number 0 with that file's length and the counts of rows and words; or 16.
pub fn check(contents: &[u32], bodies: &[u32]) -> Answer
    ensures { Checks contents.now bodies.now result }
{
    table::answers::check(contents, bodies)
}

// Writes the file that a table comes from, a true flag as 1. Number 0 with the file's length and the counts; 16 where there is no such file; 17, with the bytes needed
// as offset, where there is no room. Memory changes only with number 0, and nothing past the file.
pub fn write(contents: &[u32], bodies: &[u32], file: &mut [u8]) -> Answer
    ensures { Writes contents.now bodies.now file.old result file.new }
{
    table::answers::write(contents, bodies, file)
}

// Writes a table as a sheet: row count, word count and contents in two bytes each, bodies in four. Number 0 with the sheet's length and the counts; 16 where there
// is no such table; 17, with the bytes needed as offset, where there is no room. Memory changes only with number 0, and nothing past the sheet.
pub fn sheet_write(contents: &[u32], bodies: &[u32], sheet: &mut [u8]) -> Answer
    ensures { WritesSheet contents.now bodies.now sheet.old result sheet.new }
{
    sheets::write::write(contents, bodies, sheet)
}

// Reads a sheet into a table. Number 0 with the sheet's length and the counts of rows and words; 19 for bytes that are no sheet; 14 or 15, where there is no
// room, with the sheet's length and the counts needed. Memory changes only with number 0.
pub fn sheet_read(sheet: &[u8], contents: &mut [u32], bodies: &mut [u32]) -> Answer
    ensures { ReadsSheet sheet.now contents.old bodies.old result contents.new bodies.new }
{
    sheets::read::read(sheet, contents, bodies)
}

// Lists the rows of a table whose objects have this label for their description, in the order in which the objects open. Number 0 with their count as
// rows; 16 where there is no such table; 18, with the entries needed as offset, where there is no room. Memory changes only with number 0.
pub fn list(contents: &[u32], bodies: &[u32], label: &[u16], entries: &mut [u32]) -> Answer
    ensures { Lists contents.now bodies.now label.now entries.old result entries.new }
{
    listing::list::list(contents, bodies, label, entries)
}

// The line, fill or text paint of a row's object: a plain paint, or a gradient of two with its integer. Refused with 16 where there is no such table, 6
// where there is no such row, 7 where its object has no such paint. The enum of plain paints is `drawing::Paint`.
pub fn paint(contents: &[u32], bodies: &[u32], row: u32, which: Which) -> PaintAnswer
    ensures { Paints contents.now bodies.now row which result }
{
    questions::paint::paint(contents, bodies, row, which)
}

// Where the chars of the LaTeX alternative and of the text of a row's text, or text along a path, stand in the bodies. A refusal has the numbers of `paint`, and all places 0.
pub fn text(contents: &[u32], bodies: &[u32], row: u32) -> TextAnswer
    ensures { Texts contents.now bodies.now row result }
{
    questions::text::text(contents, bodies, row)
}

// Where the chars of the description of a row's object stand in the bodies. Below 1.2 there are none: number 0, start and length 0. Refused with 16 where there is
// no such table, 6 where there is no such row; start and length are then 0.
pub fn description(contents: &[u32], bodies: &[u32], row: u32) -> DescriptionAnswer
    ensures { Descriptions contents.now bodies.now row result }
{
    questions::description::description(contents, bodies, row)
}

// The box around the outline of a row's path, or text along a path: the least and the greatest coordinates of its points, control points included. A refusal
// has the numbers of `paint`, or 20 where a coordinate is not a number, and a box of positive zeros.
pub fn extent(contents: &[u32], bodies: &[u32], row: u32) -> ExtentAnswer
    ensures { Extents contents.now bodies.now row result }
{
    extent::extent::extent(contents, bodies, row)
}

// Of two runs of chars, the one to show: the alternative if it has a char, otherwise the plain text. It is that very run.
pub fn shown<'a>(alternative: &'a [u32], plain: &'a [u32]) -> &'a [u32]
    ensures { result ≡ shown (length alternative.now) alternative.entry plain.entry }
{
    questions::shown::shown(alternative, plain)
}

// Opens a checking session: it has been given no byte, whatever was in it before. Number 0.
pub fn open(session: &mut Session) -> Answer
    ensures { Opens session.new result }
{
    let t = opened(*session);
    *session = t.session;
    t.answer
}

// Gives a session the next bytes of a plan, any number of them. Number 0; or 22, with the session as it was, where its depth is over 16 or its bytes over 65,536.
// After a verdict nothing changes.
pub fn piece(session: &mut Session, bytes: &[u8]) -> Answer
    ensures { Pieces session.old bytes.now session.new result }
{
    let t = pieced(*session, bytes);
    *session = t.session;
    t.answer
}

// What `read` answers for the bytes given so far, with room enough. It spends the session: asked again, it answers the same. Or 22, as `piece`.
pub fn verdict(session: &mut Session) -> Answer
    ensures { Verdicts session.old session.new result }
{
    let t = judged(*session);
    *session = t.session;
    t.answer
}
