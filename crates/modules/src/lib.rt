// A module's record in a picture: a module entered, and one exchanged. Every function that other crates see is total on any bytes.
#![tactic(auto)]

mod entering;
mod records;

pub use entering::{enter, exchange};
