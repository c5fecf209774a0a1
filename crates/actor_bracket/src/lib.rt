//! How far the commit or recovery of an actor has come, by all that happened in it, and its next call: the machine of
//! both, over values of its own.
#![tactic(auto)]

mod asking;
mod closing;
mod copies;
mod editing;
mod folding;
mod going;
mod planning;
mod rewriting;
mod stand;

pub use copies::copy_changes;
pub use folding::record_of;
pub use going::{Asked, Goes, goes_after, goes_wanting, next_call};
pub use planning::files_named;
