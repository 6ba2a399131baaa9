// The chars that tell what follows, by the names that the definitions give to what they stand for (specs: ObjectId, Paint, Path).

// objects
pub const GROUP: u64 = 71;

pub const PATH: u64 = 80;

pub const TEXT: u64 = 84;

pub const BITMAP: u64 = 73;

pub const TEXT_PATH: u64 = 88;

// paints
pub const TRANSPARENT: u64 = 84;

pub const RGB: u64 = 82;

pub const CMYK: u64 = 67;

pub const GREY: u64 = 89;

pub const HSB: u64 = 83;

pub const LINEAR: u64 = 71;

pub const RADIAL: u64 = 68;

// segments
pub const CURVE: u64 = 66;

pub const LINE: u64 = 76;

pub const MOVE: u64 = 77;

// an outline is open or closed
pub const OPEN: u64 = 79;

pub const CLOSED: u64 = 67;
