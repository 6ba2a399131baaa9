// What every walk over a table shares, wherever its rows and words lie: which kinds are leaves', the bytes of a file that stand in no body, and a
// walk that has come to nothing.
#![tactic(auto)]

pub mod bytes;
pub mod kind;
pub mod lost;
