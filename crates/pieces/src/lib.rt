// A checking session (R-6): its struct, and the definitions and laws of units that come in pieces. No function.
#![tactic(auto)]

// What is left of the object that is open.
#[derive(Clone, Copy)]
pub struct Inside {
    // its parts, each a digit of base 25, the next one lowest
    pub parts: u64,
    // before them, so many fields of so many bytes, of any value
    pub run: u64,
    pub width: u32,
    // how many segments there are behind the next one, and where the one before ended
    pub segments: u32,
    pub x: u64,
    pub y: u64,
}

// What a session holds of a plan that comes in pieces, whatever its length. All are numbers, and any numbers are a session: a program in C may lend what it likes.
#[repr(C)]
#[derive(Clone, Copy)]
pub struct Session {
    // 1 once a verdict was given
    pub spent: u32,
    // how many groups are open
    pub depth: u32,
    // the bytes given so far, at most one more than the limit
    pub bytes: u32,
    // what the verdict would be if no more bytes came
    pub number: u32,
    pub offset: u32,
    // the rows so far, and the words of all fields so far, those of ids and of the head too
    pub rows: u32,
    pub words: u32,
    pub version: u32,
    // which part of the head comes next, or that the objects have begun, or that a fault was found
    pub stage: u32,
    // what is left of the object that is open, as `Inside` has it
    pub width: u32,
    pub segments: u32,
    // how many bytes are held of a part that is not all there yet
    pub held: u32,
    pub parts: u64,
    pub run: u64,
    pub x: u64,
    pub y: u64,
    // the members left of each open group, the outer one first
    pub members: [u32; 16],
    pub buffer: [u8; 184],
}
