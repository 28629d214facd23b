// The module types: their numbers, and how much each has.
#![tactic(auto)]

mod bits;
mod types;

pub use bits::one_bit;
pub use types::{
    Extent, NO_TYPE, Row, VMB1BL, VMB2BL, VMB8IR, blind_of, extent_of, handed_type, last_cell,
    last_start, module_type, name_of, names_in_memory, up_bit,
};
