// Rows of the contents, one an object, and how far a walk over rows and bodies has come.
#![tactic(auto)]

pub mod cells;
pub mod kind;
pub mod look;
pub mod store;
pub mod walked;
