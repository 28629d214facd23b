// What is shown of a picture as text: the listing of what was heard, and the line of a module's plan of reads.
#![tactic(auto)]

mod lines;
mod listing;
mod plans;
mod sheets;
mod text;

pub use listing::{LISTING_ROOM, put_listing};
pub use plans::{PLAN_ROOM, put_plan};
