// What a bench tells: each reply as a command, made of the bench's bytes.
#![tactic(auto)]

mod cells;
mod leds;
mod told;

pub use cells::{ADDRESS_AT, KIND, VERSION_AT, cell_at};
pub use leds::{Shown, leds_shown};
pub use told::{
    block_told, dump_block, name_cell, name_one, name_three, name_two, status_told, type_told,
};
