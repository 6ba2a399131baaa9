// Paints, as they stand in the words of a table.
ghost use Rattle.std.specs.Prelude.{◌≡◌, ◌+◌, ◌<◌, length, get_or};
ghost use Rattle.drawing.specs.Paint as P;
ghost use Rattle.drawing.specs.Questions.{float_of, plain_value};
ghost use Rattle.places.specs.Places.{Holds};
ghost use Rattle.questions.specs.PaintQuestion.{Number, PlainHere, PaintRead, plain_at};

use drawing::letters::{CMYK, GREY, HSB, LINEAR, RADIAL, RGB};
use drawing::{Paint, PaintAnswer};
use places::Part;
use places::behind::behind;

// A component of a paint, so many words behind its letter.
fn float_at(words: &[u32], at: usize, i: usize) -> f32
    requires { (at + i < length words.now) × Number (get_or words.now (at + i) 0) }
    ensures { result ≡ float_of (get_or words.now (at + i) 0) }
{
    f32::from_bits(words[at + i])
}

fn plain_at(words: &[u32], at: usize) -> Paint
    requires { PlainHere words.now at }
    ensures { result ≡ plain_value (plain_at words.now at) }
{
    let letter = words[at] as u64;
    if letter == RGB {
        return Paint::Rgb {
            red: float_at(&*words, at, 1),
            green: float_at(&*words, at, 2),
            blue: float_at(&*words, at, 3),
            alpha: float_at(&*words, at, 4),
        };
    }
    if letter == CMYK {
        return Paint::Cmyk {
            cyan: float_at(&*words, at, 1),
            magenta: float_at(&*words, at, 2),
            yellow: float_at(&*words, at, 3),
            black: float_at(&*words, at, 4),
            alpha: float_at(&*words, at, 5),
        };
    }
    if letter == GREY {
        return Paint::Grey {
            grey: float_at(&*words, at, 1),
            alpha: float_at(&*words, at, 2),
        };
    }
    if letter == HSB {
        return Paint::Hsb {
            hue: float_at(&*words, at, 1),
            saturation: float_at(&*words, at, 2),
            brightness: float_at(&*words, at, 3),
            alpha: float_at(&*words, at, 4),
        };
    }
    Paint::Transparent
}

// A gradient's second paint stands behind its first one, and its integer behind the second.
pub fn paint_at(words: &[u32], at: usize, version: u32) -> PaintAnswer
    requires { Holds (P.paint version) words.now at }
    ensures { PaintRead words.now version at result }
{
    let letter = words[at] as u64;
    if letter == LINEAR {
        let second = behind(&*words, at + 1, version, Part::PlainPaint);
        let last = behind(&*words, second, version, Part::PlainPaint);
        return PaintAnswer::Linear {
            start: plain_at(&*words, at + 1),
            end: plain_at(&*words, second),
            direction: words[last],
        };
    }
    if letter == RADIAL {
        let second = behind(&*words, at + 1, version, Part::PlainPaint);
        let last = behind(&*words, second, version, Part::PlainPaint);
        return PaintAnswer::Radial {
            start: plain_at(&*words, at + 1),
            end: plain_at(&*words, second),
            location: words[last],
        };
    }
    PaintAnswer::Plain(plain_at(&*words, at))
}
