//! What becomes of each message through whole runs, in words that aren't the code's: laws alone.
#![tactic(auto)]

mod laws;

pub use laws::{messages_are_kept, rows_keep_messages, what_is_put_is_kept};
