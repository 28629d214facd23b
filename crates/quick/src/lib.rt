// Records read the quick way where the longest one has room, else the general way, which is crate recording's.
#![tactic(auto)]

mod quick;
mod records;

pub use records::read_record;
