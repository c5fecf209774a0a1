//! The top call: everything that the program does.
#![tactic(auto)]

mod environment;
mod laws;
mod open;
mod recovering;
mod recovery_line;
mod sending;
mod session;
mod startup;
mod status;
mod top;
mod trial;
mod trying;
mod words;

pub use environment::Environment;
pub use laws::{
    appended_follows, decided_fit, edits_keep_appended, quits_keep_appended, quits_keep_gathered,
    replies_follow, runs_are_alike, trials_are_alike,
};
pub use mailx_session::Status;
pub use top::run;
pub use trying::try_host;
