// The places of a module, and what each frame says of them; every function here is total.
#![tactic(auto)]

mod leds;
mod places;

pub use leds::glow_number;
pub use places::{
    BLINDS, LEDS, NAME_LENGTH, PLACES, WEEK, YEAR, blind_asked, cell_place, character_place,
    has_cell, has_name, led_asked,
};
