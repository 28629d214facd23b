// Recordings: the writer of records.
#![tactic(auto)]

mod writes;

pub use writes::put_record;
