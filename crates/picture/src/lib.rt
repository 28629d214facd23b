// The picture of up to 16 modules, in bytes that the caller lends: hearing a frame; and, from the crates below, a fresh picture and a step back.
#![tactic(auto)]

mod hearing;

pub use hearing::hear;
pub use shape::SIZE;
pub use steering::{fresh, fresh_with};
pub use stores::step_back;
