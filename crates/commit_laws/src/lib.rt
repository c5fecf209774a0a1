//! Which commits a run makes, what a line that is refused has changed, and what others may do, in words that aren't the
//! code's: laws alone.
#![tactic(auto)]

mod laws;

pub use laws::{
    commits_are_known, folders_are_mailboxes, lines_ask, new_mail_stands_behind, others_may_write,
    premises_are_met, refused_lines_change_nothing, staged_file_too_long,
};
