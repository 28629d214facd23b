// Block reads: where one may start, which cells it reads, and when a list of them is a right plan for a memory row.
#![tactic(auto)]

mod blocks;
mod proposals;

pub use blocks::{BLOCK, start_for};
pub use proposals::{all_legal, is_missed};
