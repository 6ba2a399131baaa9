// The versions, the limits, and the ends of ranges (specs: Limits, Settings, Paint, Marker, LineStyle, Text).

// a version 1.m is its minor number m

pub const V1_1: u32 = 1;

pub const V1_2: u32 = 2;

pub const V1_3: u32 = 3;

pub const V1_4: u32 = 4;

pub const V1_5: u32 = 5;

pub const LAST_MINOR: u32 = 5;

// the most bytes that a file may have
pub const LENGTH_LIMIT: usize = 65_535;

// how deep groups may nest, the outer group being depth 1
pub const DEPTH_LIMIT: u32 = 16;

// the most markers in a chain of composite markers
pub const MARKER_LIMIT: u32 = 4;

// the fewest objects of a group, and segments of a path
pub const LEAST_MEMBERS: u32 = 0;

pub const LEAST_SEGMENTS: u32 = 1;

// settings and paper; a paper of this size has its measures with it
pub const LAST_TOOL: u64 = 7;

pub const LAST_UNIT: u64 = 3;

pub const LAST_SETTINGS: u64 = 2;

pub const ALL_SETTINGS: u64 = 1;

pub const PAPER_ONLY: u64 = 2;

pub const USER_PAPER: u64 = 18;

pub const LAST_PAPER: u64 = 72;

// a gradient's direction and location
pub const LAST_DIRECTION: u64 = 7;

pub const LAST_LOCATION: u64 = 8;

// the highest id of a marker in 1.0, from 1.1 and from 1.4 on
pub const LAST_ARROW: u32 = 7;

pub const LAST_MARKER: u32 = 21;

pub const LAST_NEW_MARKER: u32 = 79;

pub const FIRST_REPEAT: u64 = 1;

pub const LAST_REPEAT: u64 = 3;

// a join of 0 has a mitre limit
pub const LAST_CAP: u64 = 2;

pub const LAST_JOIN: u64 = 2;

pub const MITRE: u64 = 0;

pub const LAST_WINDING: u64 = 1;

// texts
pub const LAST_SHAPE: u64 = 1;

pub const LAST_SERIES: u64 = 1;

pub const LAST_HORIZONTAL: u64 = 2;

pub const LAST_VERTICAL: u64 = 3;
