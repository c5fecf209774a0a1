//! A session: the desk that it begins with, what an input line does to it and prints, and how the end of the input
//! leaves the folder.
#![tactic(auto)]

mod drafting;
mod fetching;
mod finishing;
mod leaving;
mod lines;
mod session;
mod startup;

pub use session::Session;
pub use session_asks::actor_of;
pub use session_state::{Flow, RunError, SessionState, Status, front_of, placed};
