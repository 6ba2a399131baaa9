// A checking session (R-6), by value: it is opened, given the pieces of a plan, and asked for the verdict.
#![tactic(auto)]

pub mod feed;
pub mod hold;
pub mod piece;
pub mod verdict;
