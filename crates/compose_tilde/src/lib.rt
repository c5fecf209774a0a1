//! A draft that is being written, line by line: its tilde escapes, what each asks for, and what becomes of the answers.
#![tactic(auto)]

mod answers;
mod compose;
mod escape;
mod laws;
mod line;
mod machine;
mod meaning;
mod messages;
mod need;
mod reading;
mod saying;
mod values;
mod view;

pub use answers::said_of;
pub use compose::Compose;
pub use escape::Escape;
pub use laws::{
    each_letter_stands_for_one_escape, lines_make_the_body, no_part_but_the_body_holds_a_line_feed,
};
pub use machine::{Machine, Names, Part, Wait};
pub use need::{Answer, ComposeError, Need};
pub use view::ComposeView;
