//! What a change makes of a mailbox file: its next bytes, its absence, or the first message at
//! which it differs from the folder that the change was made for.
#![tactic(auto)]

mod change;
mod error;
mod laws;
mod writing;

pub use change::{Change, change_name};
pub use error::ChangeError;
pub use laws::{
    add_appends, applied_in_order, each_file_alone, front_prepends, others_stay,
    rewrite_by_the_base, rewrite_keeps_the_rest,
};
pub use writing::{add_texts, missing_feeds, outcome};
