// The paint and the text question about the rows of a table, as groups of a list case.

use crate::asked::put_rows;
use crate::case::Case;
use crate::hash;
use drawing::{Answer, Span, TextAnswer};
use jdr_c::{Color, GivenPaint};
use std::fmt;
use text_out::TextOut;

// The questions about each row of a table and one row more, about 41 rows at most.
pub fn put_groups(out: &mut TextOut, case: Case<'_>) {
    let rows = rows_asked(jdr::check(case.contents, case.bodies));
    put_rows(out, 0..rows, |row| Questions::of(case, row));
}

fn rows_asked(checked: Answer) -> u32 {
    if checked.number != 0 {
        2
    } else {
        checked.rows.min(40) + 1
    }
}

// What the paint question answers for every part, one that no object has among them, and the text question.
#[derive(Clone, Copy)]
struct Questions {
    paints: [GivenPaint; 4],
    text: TextAnswer,
}

impl Questions {
    fn of(case: Case<'_>, row: u32) -> Questions {
        let Case {
            contents,
            bodies,
            ..
        } = case;
        Questions {
            paints: [0, 1, 2, 3].map(|which| jdr_c::jdr_paint(contents, bodies, row, which)),
            text: jdr::text(contents, bodies, row),
        }
    }

    // The hash of all that they answer.
    fn hash(&self) -> u32 {
        let sum = self.paints.iter().fold(hash::NONE, with_paint);
        with_text(sum, self.text)
    }
}

// The numbers of the answers, and their hash.
impl fmt::Display for Questions {
    fn fmt<W: fmt::Write>(&self, f: &mut fmt::Formatter<W>) -> fmt::Result {
        for paint in &self.paints {
            write!(f, " {}", paint.number)?;
        }
        write!(f, " {} {:08x}", self.text.number, self.hash())
    }
}

// The words of C's structs in their order, floats as their bits.
fn with_paint(sum: u32, paint: &GivenPaint) -> u32 {
    let sum = hash::with_all(sum, &[paint.number, paint.form, paint.place]);
    let sum = with_color(sum, paint.first);
    with_color(sum, paint.second)
}

fn with_color(sum: u32, color: Color) -> u32 {
    let sum = hash::with(sum, color.kind);
    color
        .components
        .iter()
        .fold(sum, |sum, component| hash::with(sum, bits(*component)))
}

// No component is a NaN; one would have the bits of all NaNs here.
fn bits(component: f32) -> u32 {
    if component.is_nan() {
        0x7FC00000
    } else {
        component.to_bits()
    }
}

fn with_text(sum: u32, answer: TextAnswer) -> u32 {
    let sum = hash::with(sum, answer.number);
    let sum = with_span(sum, answer.alternative);
    with_span(sum, answer.text)
}

fn with_span(sum: u32, span: Span) -> u32 {
    hash::with_all(sum, &[span.start, span.length])
}
