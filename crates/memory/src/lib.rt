// A table's words stored and a file's bytes written: a field, or a run of like fields. What does not fit is left out, so that a pass into no memory only
// judges and counts.
#![tactic(auto)]

pub mod fit;
pub mod store;
pub mod write;
