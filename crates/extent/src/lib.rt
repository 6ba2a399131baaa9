// The question about the box around a row's outline. No other code of the library compares floats.
#![tactic(auto)]

pub mod extent;
pub mod outline;
pub mod points;
pub mod segments;
