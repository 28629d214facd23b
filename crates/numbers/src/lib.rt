// Seven-bit numbers: the reader of the number at an offset.
#![tactic(auto)]

mod scan;

pub use scan::number;
