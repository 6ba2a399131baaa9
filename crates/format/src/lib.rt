// The format layer: fields, codecs and layouts, with nothing of JDR in it.
#![tactic(auto)]

pub mod decode;
pub mod encode;
pub mod halves;
