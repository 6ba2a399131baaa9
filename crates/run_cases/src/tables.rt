// Cases of `check` and `write`: a data file is a table's.

use crate::case::Case;
use crate::group::Group;
use crate::lent;
use std::fmt::Write;
use text_out::TextOut;

// The check; then the writer, with more bytes than any file has, and so on.
pub fn put_groups(out: &mut TextOut, case: Case<'_>) {
    let Case {
        contents,
        bodies,
        ..
    } = case;
    let _ = write!(out, "{}", Group(jdr::check(contents, bodies)));
    let mut room = [0u8; 65536];
    lent::put_groups(
        out,
        &mut room,
        |file| jdr::write(contents, bodies, file),
        |answer| answer.offset,
    );
}
