// Where the parts of a body stand, in the words of a table.
#![tactic(auto)]

pub mod behind;
pub mod row;

// A part of a body that is passed to find what stands behind it.
#[derive(Clone, Copy)]
pub enum Part {
    // the count of a group's members
    Count,
    // the fields of the leaf of this letter, before its end
    Leaf(u64),
    // the flow frame flag that begins an object's end
    FlowFlag,
    Paint,
    PlainPaint,
    // a text's fields before its LaTeX fields
    Font,
    // the flag and the LaTeX fields, if there are any
    Latex,
    // the LaTeX fields before the alternative
    BeforeAlternative,
    // a text's string
    Chars,
    LineStyle,
}
