// What the programs read of their input.
#![tactic(auto)]

mod filling;
mod hearing;

pub use filling::read_full;
pub use hearing::{Unheard, hear_input};
