// Cases of `description`: a data file is a table's, with the rows to ask about behind it.

use crate::asked::{put_numbers, put_rows};
use crate::case::Case;
use drawing::DescriptionAnswer;
use std::fmt;
use text_out::TextOut;

pub fn put_groups(out: &mut TextOut, case: Case<'_>) {
    let Case {
        contents,
        bodies,
        rest,
    } = case;
    put_rows(out, rest.iter().copied(), |row| {
        Description(jdr::description(contents, bodies, row))
    });
}

// The number of the answer, the start and the length.
#[derive(Clone, Copy)]
struct Description(DescriptionAnswer);

impl fmt::Display for Description {
    fn fmt<W: fmt::Write>(&self, f: &mut fmt::Formatter<W>) -> fmt::Result {
        let DescriptionAnswer { number, chars } = self.0;
        put_numbers(f, [number, chars.start, chars.length])
    }
}
