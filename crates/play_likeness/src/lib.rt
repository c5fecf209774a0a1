//! What a run does is fixed by the disk, the bytes of its input, and what children, editors and the clock answer.
#![tactic(auto)]

mod laws;

pub use laws::{jobs_are_alike, plays_are_alike};
