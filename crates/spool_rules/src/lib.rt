//! What a helper with the right of a folder of mailboxes does for its caller: one operation on his mailbox, its lock or a
//! staged name of it, and nothing else.
#![tactic(auto)]

mod calls;
mod laws;
mod operations;
mod port;
mod serving;
mod status;
mod users;
mod words;

pub use laws::no_call_concerns_another;
pub use port::{Found, Seen, Spool, Step, Stop};
pub use serving::run;
pub use status::SpoolStatus;
