// Which fields of a message are allowed, by the module's type.
#![tactic(auto)]

mod fields;

pub use fields::{
    blind_status_fault, block_fault, buttons_fault, cell_fault, channel_allowed, channel_fault,
    last_part_fault, name_asked_fault, status_asked_fault, stop_fault, timed_fault,
    type_short_fault,
};
