//! Aliases: names that stand for lists of names, and their expansion.
#![tactic(auto)]

mod aliases;
mod error;
mod laws;
mod listing;
mod own;
mod walk;

pub use aliases::Aliases;
pub use error::{AliasError, ExpandError};
pub use laws::{aliases_are_kept, each_name_once, no_walk_is_cut};
pub use own::{Own, dropped_names, each_once};
