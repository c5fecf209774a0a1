//! What becomes of a draft that is done or given up: its record, the sender, the dead letter.
#![tactic(auto)]

mod sending;

pub use sending::{end_draft, quit_draft};
