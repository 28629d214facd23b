// A bench module to teach on: a VMB8IR in lent bytes, made new, what a command does to it, and its replies written as frames.
#![tactic(auto)]

mod bytes;
mod deeds;
mod eights;
mod leds;
mod making;
mod sending;

pub use deeds::{act_on, set_block, set_cell};
pub use leds::{set_all, set_some};
pub use making::{SIZE, bench_new, bench_size};
pub use sending::{reply, reply_count};
