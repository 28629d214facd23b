// The plan of reads: the fewest block reads that together read every unknown cell of a module, and the test of a proposed plan. Each call is answered
// from the picture's own bytes, and changes none of them.
#![tactic(auto)]

mod cells;
mod judges;
mod plans;

pub use judges::{right_plan, right_plan_bytes};
pub use plans::{plan, plan_bytes};
