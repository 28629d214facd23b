// The numbers that bound every frame, heard or recorded; each is written here once.

// an identifier has 11 bits
pub const MOST_IDENTIFIER: u32 = 2047;

// the most data bytes
pub const MOST_BYTES: usize = 8;
