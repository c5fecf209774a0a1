//! A disk in memory: its files, locks and rights by name, what events make of it, and what a call that fails or a run
//! that stops leaves there.
#![tactic(auto)]

mod ending;
mod lists;
mod named;
mod standing;
mod stops;

pub use ending::{carry_out, cut};
pub use lists::{show_files, show_locks};
pub use named::Named;
pub use standing::{Standing, copy_found, effect};
pub use stops::{replayed, standing_of, stop};
