// What a bench makes of a frame.
#![tactic(auto)]

mod verdicts;

pub use verdicts::judge;
