// Cases of `list`, and of the questions about the rows of the same table: a data file is a table's, with a label's chars behind it.

use crate::case::Case;
use crate::cut::get_chars;
use crate::{lent, row_questions};
use text_out::TextOut;

pub fn put_groups(out: &mut TextOut, case: Case<'_>) {
    let Case {
        contents,
        bodies,
        rest,
    } = case;
    let mut chars = [0u16; 64];
    let count = get_chars(rest, &mut chars);
    let label = &chars[..count];
    let mut room = [0u32; 9400];
    lent::put_groups(
        out,
        &mut room,
        |entries| jdr::list(contents, bodies, label, entries),
        |answer| answer.rows,
    );
    row_questions::put_groups(out, case);
}
