//! What a session knows between two lines, how runs end, and what a commit leaves of it.
#![tactic(auto)]

mod answers;
mod error;
mod flow;
mod frames;
mod kinds;
mod outcome;
mod placing;
mod saving;
mod state;
mod status;

pub use answers::{AskResult, go_on, say, say_line, say_text};
pub use error::RunError;
pub use flow::Flow;
pub use frames::{Frame, Frames, Taken, WaitingLine};
pub use kinds::FrameKind;
pub use outcome::{SendOutcome, not_sent, status_of};
pub use placing::{edit_file, front_of, placed};
pub use saving::{commit, name_fault, names_fault, refused};
pub use state::{SessionState, cut_to, drop_lines, end_line};
pub use status::Status;
