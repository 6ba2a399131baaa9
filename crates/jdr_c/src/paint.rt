// The paint question's answer as C has it: structs and numbers in the place of enums.
ghost use Rattle.std.specs.Prelude.{◌≡◌};
ghost use Rattle.std.proofs.Math.Option.{none};
ghost use Rattle.drawing.specs.Questions.{paint_given};
ghost use Rattle.jdr_c.specs.Values.{color_of, paint_struct, part_numbered};
ghost use Rattle.jdr_c.specs.PaintComputed.{paint_computed};

use crate::{Color, GivenPaint};
use drawing::Paint;
use jdr::{PaintAnswer, Which};

// A plain paint.
fn color_of(paint: Paint) -> Color
    ensures { result ≡ color_of paint }
{
    match paint {
        Paint::Transparent => Color {
            kind: 0,
            components: [0.0, 0.0, 0.0, 0.0, 0.0],
        },
        Paint::Rgb {
            red,
            green,
            blue,
            alpha,
        } => Color {
            kind: 1,
            components: [red, green, blue, alpha, 0.0],
        },
        Paint::Cmyk {
            cyan,
            magenta,
            yellow,
            black,
            alpha,
        } => Color {
            kind: 2,
            components: [cyan, magenta, yellow, black, alpha],
        },
        Paint::Grey { grey, alpha } => Color {
            kind: 3,
            components: [grey, alpha, 0.0, 0.0, 0.0],
        },
        Paint::Hsb {
            hue,
            saturation,
            brightness,
            alpha,
        } => Color {
            kind: 4,
            components: [hue, saturation, brightness, alpha, 0.0],
        },
    }
}

pub fn given(answer: PaintAnswer) -> GivenPaint
    ensures { result ≡ paint_struct (paint_given answer) }
{
    match answer {
        PaintAnswer::Refused(number) => GivenPaint {
            number,
            form: 0,
            place: 0,
            first: color_of(Paint::Transparent),
            second: color_of(Paint::Transparent),
        },
        PaintAnswer::Plain(paint) => GivenPaint {
            number: 0,
            form: 0,
            place: 0,
            first: color_of(paint),
            second: color_of(Paint::Transparent),
        },
        PaintAnswer::Linear {
            start,
            end,
            direction,
        } => GivenPaint {
            number: 0,
            form: 1,
            place: direction,
            first: color_of(start),
            second: color_of(end),
        },
        PaintAnswer::Radial {
            start,
            end,
            location,
        } => GivenPaint {
            number: 0,
            form: 2,
            place: location,
            first: color_of(start),
            second: color_of(end),
        },
    }
}

// A part that no object has is judged like any other: the table, the row, the part.
fn no_part(contents: &[u32], bodies: &[u32], row: u32) -> PaintAnswer
    ensures { result ≡ paint_computed contents.now bodies.now row none }
{
    let checked = jdr::check(contents, bodies);
    if checked.number != 0 {
        return PaintAnswer::Refused(16);
    }
    if checked.rows <= row {
        return PaintAnswer::Refused(6);
    }
    PaintAnswer::Refused(7)
}

// The question about the part of this number.
pub fn asked(contents: &[u32], bodies: &[u32], row: u32, which: u32) -> PaintAnswer
    ensures { result ≡ paint_computed contents.now bodies.now row (part_numbered which) }
{
    if which == 0 {
        return jdr::paint(contents, bodies, row, Which::Line);
    }
    if which == 1 {
        return jdr::paint(contents, bodies, row, Which::Fill);
    }
    if which == 2 {
        return jdr::paint(contents, bodies, row, Which::Text);
    }
    no_part(contents, bodies, row)
}
