// Seven-bit numbers group by group: their reader and their writer.
#![tactic(auto)]

mod scan;
mod writes;

pub use scan::{NumberFault, read_groups, wide};
pub use writes::{number_size, put_number};
