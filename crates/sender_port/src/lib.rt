//! How mail is sent: the names that can be sent to, and the program that takes the message.
#![tactic(auto)]

mod error;
mod names;
mod sending;

pub use error::{NamesFault, SendError};
pub use names::{names_are_plain, names_fault};
pub use sending::send;
