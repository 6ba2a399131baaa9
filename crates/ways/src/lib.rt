// How far a pass over the fields of a layout has come, the primitives of a way, and the laws of passes, for any way.
#![tactic(auto)]

pub mod way;

// The places in the source and in the target. Or a refusal: the place of the field at fault, so much further than any source reaches, and the number.
#[derive(Clone, Copy)]
pub struct Pass {
    pub at: usize,
    pub to: usize,
}

pub const REFUSED: usize = 1_073_741_824;

// A field's value, 0 where there is none, and how far the pass has come behind it.
#[derive(Clone, Copy)]
pub struct FieldPass {
    pub value: u64,
    pub pass: Pass,
}
