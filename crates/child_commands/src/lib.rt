//! The commands that run programs: `!`, pipe, folders, edit and visual, each of which comes to a command that is run by
//! the shell, or to the line that refuses it. Nothing is run yet.
#![tactic(auto)]

mod editing;
mod listing;
mod piping;
mod running;

pub use editing::{edit, visual};
pub use listing::folders;
pub use piping::pipe;
pub use running::shell;
