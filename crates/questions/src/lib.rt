// The questions on a picture: each is answered from the bytes that the caller lends, and changes none of them.
#![tactic(auto)]

mod asking;
mod names;
mod rows;
mod values;

pub use asking::{AddressAsked, LocationAsked, module_asked, slot_asked};
pub use names::{name, name_bytes};
pub use rows::{cells_in, first_cell, listed, memory_bytes, memory_row};
pub use values::{blind, build_week, build_year, cell, kept, led, type_of};
