// A frame judged on its bytes, by the module types' rows and the rules of the fields.
#![tactic(auto)]

mod frames;
mod rows;

pub use frames::{
    form_refusal, is_frame, judge, refusal_unlisted, request_refusal, untyped_refusal,
};
