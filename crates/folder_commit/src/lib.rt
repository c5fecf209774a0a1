//! A commit: changes of files that are made whole or not at all.
#![tactic(auto)]

mod error;
mod names;
mod plan;
mod run;

pub use commit_driver::Passed;
pub use error::CommitError;
pub use names::is_file_name;
pub use run::commit;
