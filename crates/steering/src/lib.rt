// The head of a picture, whose bytes steer the rest: made fresh, and one step more kept. Every function here is total on any bytes.
#![tactic(auto)]

mod clearing;
mod steps;

pub use clearing::{fresh, fresh_with};
pub use steps::step_on;
