//! Lines of commands: the command that a line names, and the line cut into words.
#![tactic(auto)]

mod command;
mod cut;
mod laws;
mod line;
mod table;

pub use command::Command;
pub use cut::{list_words_of, words_of};
pub use laws::{a_word_names_one_command, lines_are_cut_into_words, words_read_back};
pub use line::{CommandLine, LineError, command_in, read_line};
pub use table::{command_name, command_of, whole_name};
