// The calls that check a table and write its file.
#![tactic(auto)]

pub mod answers;
pub mod counts;
