// The head of a file: the chars JDR, the length of the version and its three chars, each as one number, and where they stand.

pub const MAGIC: u64 = 0x4a_0044_0052;

pub const MAGIC_AT: usize = 0;

pub const VERSION_LENGTH: u64 = 3;

pub const VERSION_LENGTH_AT: usize = 6;

// the chars 1.0; those of 1.m are m more
pub const VERSION_ZERO: u64 = 0x31_002e_0030;

pub const VERSION_LAST: u64 = 0x31_002e_0035;

pub const VERSION_AT: usize = 10;

pub const HEAD_BYTES: usize = 16;

// the word of the version, before those of the settings
pub const HEAD_WORDS: usize = 1;
