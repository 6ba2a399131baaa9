// The layout in code, over any way: paths, texts, bitmaps, texts along paths, and what ends every object.
#![tactic(auto)]

pub mod bitmap;
pub mod end;
pub mod leaf;
pub mod path;
pub mod segment;
pub mod text;
pub mod text_path;
