// What is wrong with a field's value, as the definitions say it (drawing/specs/Fields): faults, and the ranges they are judged by.
#![tactic(auto)]

pub mod fault;
pub mod floats;
pub mod letters;
pub mod ranges;
