//! The commands that begin a message: to names, or as an answer to messages of the folder.
#![tactic(auto)]

mod mailing;
mod replying;

pub use mailing::{mail, writer};
pub use replying::{followup, followup_authors, reply, reply_authors};
