// A command that a module tells or is told: judged, and told to the picture, at one look.
#![tactic(auto)]

mod blinds;
mod cells;
mod commands;
mod forms;
mod lights;
mod names;
mod others;

pub use commands::hear_command;
