//! What a run does: acts of the outside, the plays that they make, and input by lines.
#![tactic(auto)]

mod act;
mod changing;
mod naming;
mod reader;
mod recovering;
mod stop;

pub use act::{Found, load, now, run_child, run_editor, say, try_load};
pub use changing::{Attempt, Committed, change};
pub use naming::{NameFault, target_fault};
pub use reader::Reader;
pub use recovering::{RecoveryAnswer, recovery};
pub use stop::Stop;
