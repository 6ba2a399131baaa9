// The numbers of answers (01, 'Numbers given back').

pub const ACCEPTED: u32 = 0;

pub const TOO_LONG: u32 = 1;

pub const CUT: u32 = 2;

pub const NO_JDR: u32 = 3;

pub const BAD_VERSION: u32 = 4;

pub const BAD_FLAG: u32 = 5;

pub const OUT_OF_RANGE: u32 = 6;

pub const BAD_CHAR: u32 = 7;

pub const BAD_COUNT: u32 = 8;

pub const BAD_COMPONENT: u32 = 9;

pub const TOO_DEEP: u32 = 10;

pub const FLOW_FRAME: u32 = 11;

pub const UNJOINED: u32 = 12;

pub const TRAILING_BYTES: u32 = 13;

pub const CONTENTS_TOO_SHORT: u32 = 14;

pub const BODIES_TOO_SHORT: u32 = 15;

pub const NO_TABLE: u32 = 16;

pub const OUTPUT_TOO_SHORT: u32 = 17;

pub const LIST_TOO_SHORT: u32 = 18;

pub const NO_SHEET: u32 = 19;

pub const NOT_A_NUMBER: u32 = 20;

// the questions' own
pub const NO_ROW: u32 = 6;

pub const NO_PART: u32 = 7;
