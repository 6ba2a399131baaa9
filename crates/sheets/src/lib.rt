// Sheets: a table in bytes, read and written. A sheet is judged where it lies, and then copied.
#![tactic(auto)]

pub mod judge;
pub mod read;
mod words;
pub mod write;
