// What include/jdr.h declares, exported: each function of `jdr_c` again, under the same name and contract, as a symbol of the static library libjdr_c.a. A static
// library is no library of other crates, so `jdr_c` has the calls, for the crates that prove or run something of them, and this crate alone is linked by C.
// tools/library builds it.
#![tactic(auto)]

ghost use Rattle.promises.specs.Promises.{Reads, Checks, Writes, WritesSheet, ReadsSheet, Lists, Texts, Descriptions, Extents};
ghost use Rattle.jdr_c.specs.Values.{PaintsForC};
ghost use Rattle.pieces.specs.SessionPromises.{Opens, Pieces, Verdicts};

use drawing::{Answer, DescriptionAnswer, ExtentAnswer, TextAnswer};
use jdr_c::GivenPaint;
use pieces::Session;

#[unsafe(no_mangle)]
pub extern "C" fn jdr_read(file: &[u8], contents: &mut [u32], bodies: &mut [u32]) -> Answer
    ensures { Reads file.now contents.old bodies.old result contents.new bodies.new }
{
    jdr_c::jdr_read(file, contents, bodies)
}

#[unsafe(no_mangle)]
pub extern "C" fn jdr_check(contents: &[u32], bodies: &[u32]) -> Answer
    ensures { Checks contents.now bodies.now result }
{
    jdr_c::jdr_check(contents, bodies)
}

#[unsafe(no_mangle)]
pub extern "C" fn jdr_write(contents: &[u32], bodies: &[u32], file: &mut [u8]) -> Answer
    ensures { Writes contents.now bodies.now file.old result file.new }
{
    jdr_c::jdr_write(contents, bodies, file)
}

#[unsafe(no_mangle)]
pub extern "C" fn jdr_sheet_write(contents: &[u32], bodies: &[u32], sheet: &mut [u8]) -> Answer
    ensures { WritesSheet contents.now bodies.now sheet.old result sheet.new }
{
    jdr_c::jdr_sheet_write(contents, bodies, sheet)
}

#[unsafe(no_mangle)]
pub extern "C" fn jdr_sheet_read(sheet: &[u8], contents: &mut [u32], bodies: &mut [u32]) -> Answer
    ensures { ReadsSheet sheet.now contents.old bodies.old result contents.new bodies.new }
{
    jdr_c::jdr_sheet_read(sheet, contents, bodies)
}

#[unsafe(no_mangle)]
pub extern "C" fn jdr_list(
    contents: &[u32],
    bodies: &[u32],
    label: &[u16],
    entries: &mut [u32],
) -> Answer
    ensures { Lists contents.now bodies.now label.now entries.old result entries.new }
{
    jdr_c::jdr_list(contents, bodies, label, entries)
}

#[unsafe(no_mangle)]
pub extern "C" fn jdr_paint(contents: &[u32], bodies: &[u32], row: u32, which: u32) -> GivenPaint
    ensures { PaintsForC contents.now bodies.now row which result }
{
    jdr_c::jdr_paint(contents, bodies, row, which)
}

#[unsafe(no_mangle)]
pub extern "C" fn jdr_text(contents: &[u32], bodies: &[u32], row: u32) -> TextAnswer
    ensures { Texts contents.now bodies.now row result }
{
    jdr_c::jdr_text(contents, bodies, row)
}

#[unsafe(no_mangle)]
pub extern "C" fn jdr_description(contents: &[u32], bodies: &[u32], row: u32) -> DescriptionAnswer
    ensures { Descriptions contents.now bodies.now row result }
{
    jdr_c::jdr_description(contents, bodies, row)
}

#[unsafe(no_mangle)]
pub extern "C" fn jdr_box(contents: &[u32], bodies: &[u32], row: u32) -> ExtentAnswer
    ensures { Extents contents.now bodies.now row result }
{
    jdr_c::jdr_box(contents, bodies, row)
}

#[unsafe(no_mangle)]
pub extern "C" fn jdr_session_open(session: &mut Session) -> Answer
    ensures { Opens session.new result }
{
    jdr_c::jdr_session_open(session)
}

#[unsafe(no_mangle)]
pub extern "C" fn jdr_session_piece(session: &mut Session, bytes: &[u8]) -> Answer
    ensures { Pieces session.old bytes.now session.new result }
{
    jdr_c::jdr_session_piece(session, bytes)
}

#[unsafe(no_mangle)]
pub extern "C" fn jdr_session_verdict(session: &mut Session) -> Answer
    ensures { Verdicts session.old session.new result }
{
    jdr_c::jdr_session_verdict(session)
}
