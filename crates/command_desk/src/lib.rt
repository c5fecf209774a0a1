//! What the commands of a session stand on: the desk between two commands, what a command asks for and changes, the
//! lines that refuse it, the messages that its words select, and a message as it is printed.
#![tactic(auto)]

mod desk;
mod effects;
mod faults;
mod file_names;
mod lists;
mod messages;
mod naming;
mod selecting;
mod steps;

pub use desk::Desk;
pub use effects::{
    Effects, Marking, act_on, gathers, marked, marked_and_written, markings, moved, renames,
    unchanged, written,
};
pub use faults::{fault, line_of};
pub use file_names::{expanded, named_after, named_plainly};
pub use lists::{as_lines, copies, put_lines};
pub use messages::{message, printed, put_heading, put_printed};
pub use naming::Naming;
pub use quit_rules::{Batch, BatchItem, Open, Payload};
pub use selecting::{MessageSet, chosen, last_message, last_word, list_line, list_words, single};
pub use steps::{Ask, Refusal, Steps, effects_alone, says};
