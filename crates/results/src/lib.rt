// The result word of a call from C.
#![tactic(auto)]

mod words;

pub use words::{answer_word, filled_word, outcome_word, refused, room_word, value_word};
