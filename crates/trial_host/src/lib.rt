//! A host in memory on which the program tries itself: a mailbox of so many messages, and lines that are always the same.
#![tactic(auto)]

mod scripted;
mod texts;
mod trial;

pub use scripted::Scripted;
pub use texts::put_numbered;
pub use trial::first_host;
