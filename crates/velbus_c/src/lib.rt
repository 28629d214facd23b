// The C interface: each call of the library as a C function of the same name, which says the same of what it answers and of every buffer.
#![tactic(auto)]

mod benches;
mod frames;
mod pictures;
mod plans;
mod recordings;
