// The numbers that the paper fixes for recordings; a frame's own bounds are those of crate laws.
use laws::{MOST_BYTES, MOST_IDENTIFIER};

// A gap: the greatest, and the groups that it takes.
pub const MOST_GAP: u64 = 34359738367;

const GAP_GROUPS: usize = 5;

pub const MOST_REMOTE: u32 = 1;

// The word, 2 × identifier + remote flag.
pub const MOST_WORD: u64 = (2 * MOST_IDENTIFIER + MOST_REMOTE) as u64;

const WORD_GROUPS: usize = 2;

// The count of the data bytes.
pub const MOST_COUNT: u64 = MOST_BYTES as u64;

const COUNT_GROUPS: usize = 1;

// So the longest record has so many bytes.
pub const LONGEST: usize = GAP_GROUPS + WORD_GROUPS + COUNT_GROUPS + MOST_BYTES;
