// A frame taken by a bench: read as a message, judged, its deed done, and its replies written.
#![tactic(auto)]

mod taking;

pub use taking::bench_take;
