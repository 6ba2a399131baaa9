// The words of a row of the contents (specs: Table): the kind of the object, the row of its parent, the start and the length of its body.

pub const ROW_WIDTH: usize = 4;

pub const PARENT: usize = 1;

pub const START: usize = 2;

pub const SIZE: usize = 3;

pub const GROUP_KIND: u32 = 1;

pub const PATH_KIND: u32 = 2;

pub const TEXT_KIND: u32 = 3;

pub const BITMAP_KIND: u32 = 4;

pub const TEXT_PATH_KIND: u32 = 5;
