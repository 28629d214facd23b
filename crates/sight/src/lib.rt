// Frames for a bench taken at one look: the answer is a result word, and no message is made of a frame that fits.
#![tactic(auto)]

mod arms;
mod laying;
mod words;

pub use words::take_word;
