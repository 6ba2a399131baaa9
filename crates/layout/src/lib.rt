// The layout in code, over any way (`ways::way`): fields, runs, strings, transformations, and groups of fields. The things of the format are in `layout_styles`
// and `layout_objects`. A pass judges each field, and stores it where there is memory; into no memory it only judges and counts.
#![tactic(auto)]

pub mod each;
pub mod field;
pub mod group;
pub mod letter;
pub mod run;
pub mod string;
pub mod transformation;
