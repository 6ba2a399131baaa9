// The bytes of a sheet's numbers (specs: Sheet).

// of a count, and of a number in the contents
pub const NUMBER_BYTES: usize = 2;

// of a word in the bodies
pub const WORD_BYTES: usize = 4;
