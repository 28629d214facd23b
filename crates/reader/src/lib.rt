// Velbus frames read as messages.
#![tactic(auto)]

mod reader;

pub use reader::read;
