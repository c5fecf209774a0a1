//! The dispatch of commands: what a line asks for and what it changes, by the command that it names.
#![tactic(auto)]

mod dispatch;
mod origin;

pub use command_desk::{Ask, Desk, Effects, Open, Refusal, Steps};
pub use dispatch::perform;
pub use folder_commands::quit;
pub use origin::{Origin, is_defining, perform_line, startup_lines_ask_little};
pub use show_commands::{current_page, page_of, page_size};
