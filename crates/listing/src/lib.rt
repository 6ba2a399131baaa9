// The listing: the rows of a table with a label.
#![tactic(auto)]

pub mod entries;
pub mod label;
pub mod list;
