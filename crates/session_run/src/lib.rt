// A session, run over some bytes: a plan is judged part by part, and not stored (R-6).
#![tactic(auto)]

pub mod advance;
pub mod cursor;
pub mod field;
pub mod parts;
pub mod place;
pub mod run;
pub mod stage;
pub mod step;
pub mod whole;
