// The parts of a file, by which a session goes on: each is a digit of base 25. What is left of an object is a number of several digits, the next part
// lowest (specs: Parts).
ghost use Rattle.std.specs.Prelude.{◌≡◌, ◌%◌};
ghost use Rattle.session_run.specs.Digit.{digit};

// A part, by its digit.
#[derive(Clone, Copy)]
pub enum Part {
    // none is left: an object's id comes next, or the end of the innermost group
    Nothing,

    // parts that are judged whole
    Paint,
    Width,
    LineEnd,
    Markers,
    Point,
    Controls,
    Join,
    Face,
    Transformation,
    Alignment,

    // counts, lengths and flags, which tell what follows
    Dashes,
    String,
    Words,

    // the last ones of their number: each tells all that is left
    Latex,
    LatexAlong,
    Links,
    Outline,
    Count,
    Segment,
    First,
    Joined,
    EndX,
    EndY,
    End,
}

impl Part {
    // The next part of a number.
    pub fn next(parts: u64) -> Self
        ensures { digit result ≡ parts % 25 }
    {
        match parts % BASE {
            1 => Part::Paint,
            2 => Part::Width,
            3 => Part::LineEnd,
            4 => Part::Markers,
            5 => Part::Point,
            6 => Part::Controls,
            7 => Part::Join,
            8 => Part::Face,
            9 => Part::Transformation,
            10 => Part::Alignment,
            11 => Part::Dashes,
            12 => Part::String,
            13 => Part::Words,
            14 => Part::Latex,
            15 => Part::LatexAlong,
            16 => Part::Links,
            17 => Part::Outline,
            18 => Part::Count,
            19 => Part::Segment,
            20 => Part::First,
            21 => Part::Joined,
            22 => Part::EndX,
            23 => Part::EndY,
            24 => Part::End,
            _ => Part::Nothing,
        }
    }
}

// ---- numbers of several parts

pub const BASE: u64 = 25;

macro_rules! parts {
    ($last:ident) => {
        Part::$last as u64
    };
    ($next:ident, $($more:ident),+) => {
        Part::$next as u64 + BASE * parts!($($more),+)
    };
}

pub const ARROW_PATH: u64 = parts!(
    Paint, Paint, Width, Dashes, LineEnd, Markers, Markers, Outline
);

pub const MARKED_PATH: u64 = parts!(
    Paint, Paint, Width, Dashes, LineEnd, Markers, Markers, Markers, Outline
);

pub const TEXT_PARTS: u64 = parts!(String, Face, Latex);

pub const ALONG_PARTS: u64 = parts!(Paint, String, Face, LatexAlong);

pub const BITMAP_PARTS: u64 = parts!(Words, Links);

pub const TEXT_END: u64 = parts!(Paint, Words, End);

pub const TEXT_LATEX: u64 = parts!(
    String, String, String, String, Alignment, String, Paint, Words, End
);

pub const ALONG_END: u64 = parts!(Words, Outline);

pub const ALONG_LATEX: u64 = parts!(
    String, String, String, String, Alignment, String, Words, Outline
);

pub const BITMAP_END: u64 = parts!(Transformation, End);

pub const BITMAP_LATEX: u64 = parts!(String, String, Transformation, End);

pub const FREE_LINE: u64 = parts!(Point, EndX);

pub const FREE_CURVE: u64 = parts!(Point, Controls, EndX);

pub const JOINED_LINE: u64 = parts!(Join, EndX);

pub const JOINED_CURVE: u64 = parts!(Join, Controls, EndX);
