//! What a quit makes of an open folder: which messages stay, which go to mbox and which leave, and the changes of
//! both files, after those that were gathered.
#![tactic(auto)]

mod count;
mod fate;
mod gathered;
mod laws;
mod open;
mod plan;

pub use count::{boxed, kept};
pub use fate::{Fate, Rules};
pub use gathered::{Batch, BatchItem, Payload};
pub use laws::{a_quit_loses_nothing, what_is_unchanged_stays};
pub use open::Open;
pub use plan::quit_changes;
