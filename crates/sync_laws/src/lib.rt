//! What names that weren't synced yet may become at a loss of power, before a commit is decided.
#![tactic(auto)]

mod laws;

pub use laws::unsynced_names_are_harmless;
