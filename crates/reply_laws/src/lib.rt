//! What a user may count on of what is printed: that a receipt comes only once its change was committed. Laws alone.
#![tactic(auto)]

mod laws;

pub use laws::{filings_tell_behind, nothing_is_said_before};
