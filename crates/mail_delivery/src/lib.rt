//! A local delivery: a message from the input is put into the mailboxes of users, all in one commit.
#![tactic(auto)]

mod delivered;
mod delivery;
mod environment;
mod laws;
mod status;
mod words;

pub use delivery::deliver;
pub use environment::Environment;
pub use laws::{
    a_delivery_is_one_message, a_delivery_reads_back, done_stands, each_gets_one, users_are_once,
};
pub use status::DeliverStatus;
