// Questions about a row's object, a paint, a text and its description; and which of two texts is to be shown.
#![tactic(auto)]

pub mod asked;
pub mod description;
pub mod paint;
pub mod paint_words;
pub mod shown;
pub mod text;
pub mod text_places;
