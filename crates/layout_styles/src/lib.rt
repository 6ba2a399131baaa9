// The layout in code, over any way: paints, markers, line styles, settings.
#![tactic(auto)]

pub mod line_style;
pub mod marker;
pub mod paint;
pub mod settings;
