// Recordings: the reader of records, wherever they end.
#![tactic(auto)]

mod limits;
mod records;

pub use limits::{LONGEST, MOST_COUNT, MOST_GAP, MOST_REMOTE, MOST_WORD};
pub use records::{Fault, Record, read_any};
