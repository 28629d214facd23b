// The library's calls: numbers and byte buffers in, one result word out.
#![tactic(auto)]

mod benches;
mod codes;
mod frames;
mod pictures;
mod plans;
mod recordings;

pub use benches::{velbus_bench_new, velbus_bench_size, velbus_bench_take};
pub use frames::{velbus_read, velbus_write};
pub use pictures::{
    velbus_blind, velbus_build_week, velbus_build_year, velbus_cell, velbus_fresh,
    velbus_fresh_depth, velbus_hear, velbus_kept, velbus_led, velbus_listed, velbus_memory_row,
    velbus_name, velbus_picture_size, velbus_step_back, velbus_type,
};
pub use plans::{velbus_plan, velbus_right_plan};
pub use recordings::velbus_put_record;
