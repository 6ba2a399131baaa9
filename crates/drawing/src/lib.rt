// The drawing layer: what a drawing is, its file, its table, and what each call answers. Its definitions and laws are in
// specs/; here are the types of the answers that they speak of, and the names of numbers. Types that are `#[repr(C)]` go to programs in C as they are.
#![tactic(auto)]

pub mod head;
pub mod letters;
pub mod limits;
pub mod numbers;
pub mod row;
pub mod sheet;

// What a call gives back: 01's number, the offset, and the counts of rows and words.
#[repr(C)]
#[derive(Clone, Copy)]
pub struct Answer {
    pub number: u32,
    pub offset: u32,
    pub rows: u32,
    pub words: u32,
}

// A plain paint with its components, in file order.
#[derive(Clone, Copy)]
pub enum Paint {
    Transparent,
    Rgb {
        red: f32,
        green: f32,
        blue: f32,
        alpha: f32,
    },
    Cmyk {
        cyan: f32,
        magenta: f32,
        yellow: f32,
        black: f32,
        alpha: f32,
    },
    Grey {
        grey: f32,
        alpha: f32,
    },
    Hsb {
        hue: f32,
        saturation: f32,
        brightness: f32,
        alpha: f32,
    },
}

// The answer of the paint question: a refusal's number, a plain paint, or a gradient of two plain paints with its integer.
#[derive(Clone, Copy)]
pub enum PaintAnswer {
    Refused(u32),
    Plain(Paint),
    Linear {
        start: Paint,
        end: Paint,
        direction: u32,
    },
    Radial {
        start: Paint,
        end: Paint,
        location: u32,
    },
}

// Which paint the paint question is about.
#[derive(Clone, Copy)]
pub enum Which {
    Line,
    Fill,
    Text,
}

// A run of words in the bodies.
#[repr(C)]
#[derive(Clone, Copy)]
pub struct Span {
    pub start: u32,
    pub length: u32,
}

// The answer of the text question: 01's number, and where the chars of the LaTeX alternative and of the text stand.
#[repr(C)]
#[derive(Clone, Copy)]
pub struct TextAnswer {
    pub number: u32,
    pub alternative: Span,
    pub text: Span,
}

// The answer of the description question: the number, and where the description's chars stand.
#[repr(C)]
#[derive(Clone, Copy)]
pub struct DescriptionAnswer {
    pub number: u32,
    pub chars: Span,
}

// The box around an outline: the least and the greatest coordinates.
#[repr(C)]
#[derive(Clone, Copy)]
pub struct Extent {
    pub left: f64,
    pub bottom: f64,
    pub right: f64,
    pub top: f64,
}

// The answer of the question about an extent: the number, and the box.
#[repr(C)]
#[derive(Clone, Copy)]
pub struct ExtentAnswer {
    pub number: u32,
    pub extent: Extent,
}
