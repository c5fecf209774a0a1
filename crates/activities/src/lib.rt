//! What a session does by calls of the outside, each followed by what its answer calls for: one driver makes the calls.
#![tactic(auto)]

mod acting;
mod call;
mod driving;

pub use acting::Activity;
pub use call::{Answer, Call, Turn};
pub use driving::drive;
