// A message as it lies in a C caller's bytes: laid out, and taken in again.
#![tactic(auto)]

mod layout;
mod parts;

pub use layout::{MESSAGE_SIZE, held_in, laid};
pub use parts::{Parts, Six, held_by, parts_of};
