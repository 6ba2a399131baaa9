// The calls of `jdr` for programs in other languages, under names of C and with C's way of passing: a slice is a pointer and a length in elements, an
// answer a struct by value. include/jdr.h declares them, and `jdr_export` exports each. Each has the contract of jdr's call (`jdr_paint` the same, said of a struct),
// and asks nothing of its inputs but what C cannot say: that a run is aligned and as long as it is said to be, and that one lent for writing overlaps no other.
#![tactic(auto)]

ghost use Rattle.promises.specs.Promises.{Reads, Checks, Writes, WritesSheet, ReadsSheet, Lists, Texts, Descriptions, Extents};
ghost use Rattle.jdr_c.specs.Values.{PaintsForC};
ghost use Rattle.pieces.specs.SessionPromises.{Opens, Pieces, Verdicts};

use jdr::{Answer, DescriptionAnswer, ExtentAnswer, Session, TextAnswer};
use session::piece::pieced;
use session::verdict::{judged, opened};

mod paint;

// A plain paint: 0 transparent, 1 RGB, 2 CMYK, 3 grey, 4 HSB, and its components.
#[repr(C)]
#[derive(Clone, Copy)]
pub struct Color {
    pub kind: u32,
    pub components: [f32; 5],
}

// A paint. `number`: 0, or the refusal's; `form`: 0 plain, 1 linear, 2 radial; `place`: the gradient's integer, else 0; and the one or two plain paints.
#[repr(C)]
#[derive(Clone, Copy)]
pub struct GivenPaint {
    pub number: u32,
    pub form: u32,
    pub place: u32,
    pub first: Color,
    pub second: Color,
}

// `jdr::read`.
#[unsafe(no_mangle)]
pub extern "C" fn jdr_read(file: &[u8], contents: &mut [u32], bodies: &mut [u32]) -> Answer
    ensures { Reads file.now contents.old bodies.old result contents.new bodies.new }
{
    jdr::read(file, contents, bodies)
}

// `jdr::check`.
#[unsafe(no_mangle)]
pub extern "C" fn jdr_check(contents: &[u32], bodies: &[u32]) -> Answer
    ensures { Checks contents.now bodies.now result }
{
    jdr::check(contents, bodies)
}

// `jdr::write`.
#[unsafe(no_mangle)]
pub extern "C" fn jdr_write(contents: &[u32], bodies: &[u32], file: &mut [u8]) -> Answer
    ensures { Writes contents.now bodies.now file.old result file.new }
{
    jdr::write(contents, bodies, file)
}

// `jdr::sheet_write`.
#[unsafe(no_mangle)]
pub extern "C" fn jdr_sheet_write(contents: &[u32], bodies: &[u32], sheet: &mut [u8]) -> Answer
    ensures { WritesSheet contents.now bodies.now sheet.old result sheet.new }
{
    jdr::sheet_write(contents, bodies, sheet)
}

// `jdr::sheet_read`.
#[unsafe(no_mangle)]
pub extern "C" fn jdr_sheet_read(sheet: &[u8], contents: &mut [u32], bodies: &mut [u32]) -> Answer
    ensures { ReadsSheet sheet.now contents.old bodies.old result contents.new bodies.new }
{
    jdr::sheet_read(sheet, contents, bodies)
}

// `jdr::list`.
#[unsafe(no_mangle)]
pub extern "C" fn jdr_list(
    contents: &[u32],
    bodies: &[u32],
    label: &[u16],
    entries: &mut [u32],
) -> Answer
    ensures { Lists contents.now bodies.now label.now entries.old result entries.new }
{
    jdr::list(contents, bodies, label, entries)
}

// `jdr::paint`, with a number for the part: 0 line, 1 fill, 2 text, and any other for one that no object has.
#[unsafe(no_mangle)]
pub extern "C" fn jdr_paint(contents: &[u32], bodies: &[u32], row: u32, which: u32) -> GivenPaint
    ensures { PaintsForC contents.now bodies.now row which result }
{
    paint::given(paint::asked(contents, bodies, row, which))
}

// `jdr::text`, whose answer is C's struct as it is.
#[unsafe(no_mangle)]
pub extern "C" fn jdr_text(contents: &[u32], bodies: &[u32], row: u32) -> TextAnswer
    ensures { Texts contents.now bodies.now row result }
{
    jdr::text(contents, bodies, row)
}

// `jdr::description`, whose answer is C's struct as it is: a number, a start and a length.
#[unsafe(no_mangle)]
pub extern "C" fn jdr_description(contents: &[u32], bodies: &[u32], row: u32) -> DescriptionAnswer
    ensures { Descriptions contents.now bodies.now row result }
{
    jdr::description(contents, bodies, row)
}

// `jdr::extent`, whose answer is C's struct as it is: a number and four doubles.
#[unsafe(no_mangle)]
pub extern "C" fn jdr_box(contents: &[u32], bodies: &[u32], row: u32) -> ExtentAnswer
    ensures { Extents contents.now bodies.now row result }
{
    jdr::extent(contents, bodies, row)
}

// As `jdr::open`. The calls on a session copy it out and store it back themselves, as those of `jdr` do.
#[unsafe(no_mangle)]
pub extern "C" fn jdr_session_open(session: &mut Session) -> Answer
    ensures { Opens session.new result }
{
    let t = opened(*session);
    *session = t.session;
    t.answer
}

// As `jdr::piece`.
#[unsafe(no_mangle)]
pub extern "C" fn jdr_session_piece(session: &mut Session, bytes: &[u8]) -> Answer
    ensures { Pieces session.old bytes.now session.new result }
{
    let t = pieced(*session, bytes);
    *session = t.session;
    t.answer
}

// As `jdr::verdict`.
#[unsafe(no_mangle)]
pub extern "C" fn jdr_session_verdict(session: &mut Session) -> Answer
    ensures { Verdicts session.old session.new result }
{
    let t = judged(*session);
    *session = t.session;
    t.answer
}
