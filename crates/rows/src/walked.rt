// How far a walk over rows and bodies has come.

// The next row, and the places of a pass: in the source, which tells a refusal as a pass does, and in the target.
#[derive(Clone, Copy)]
pub struct Walked {
    pub row: usize,
    pub at: usize,
    pub to: usize,
}
