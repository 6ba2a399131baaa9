// Cases of `sheet_write`: a data file is a table's.

use crate::case::Case;
use crate::lent;
use text_out::TextOut;

// There is room for more bytes than any sheet has.
pub fn put_groups(out: &mut TextOut, case: Case<'_>) {
    let Case {
        contents,
        bodies,
        ..
    } = case;
    let mut room = [0u8; 340000];
    lent::put_groups(
        out,
        &mut room,
        |sheet| jdr::sheet_write(contents, bodies, sheet),
        |answer| answer.offset,
    );
}
