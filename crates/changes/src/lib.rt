// What is told to a picture: runs of places, each of which looks first whether it lies in a record, so that it is total on any bytes.
#![tactic(auto)]

mod leds;
mod telling;

pub use telling::{
    ask_four, ask_one, pass, tell_build, tell_four, tell_leds, tell_one, tell_six, tell_some_leds,
};
