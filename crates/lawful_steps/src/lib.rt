//! Whether what others do beside a run is lawful, for the crates of tests: what the crash promise asks of others, as
//! functions.
#![tactic(auto)]

mod guarding;
mod lawful;
mod rights;
mod trace;

pub use lawful::is_lawful;
pub use trace::are_lawful;
