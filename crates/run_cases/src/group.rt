// The groups of a case's line: what a call answered, behind what parts it from what is before it.
use crate::asked::put_numbers;
use drawing::Answer;
use std::fmt;

#[derive(Clone, Copy)]
pub struct Group(pub Answer);

impl fmt::Display for Group {
    fn fmt<W: fmt::Write>(&self, f: &mut fmt::Formatter<W>) -> fmt::Result {
        let answer = self.0;
        f.write_str(" ;")?;
        put_numbers(f, [answer.number, answer.offset, answer.rows, answer.words])
    }
}
