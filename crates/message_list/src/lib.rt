//! Message lists: the words that name messages, and the messages that a list of them selects.
#![tactic(auto)]

mod author;
mod choosing;
mod kind;
mod list;
mod read;
mod selection;
mod span;
mod view;

pub use author::{author_local_part, before_at};
pub use choosing::chosen;
pub use list::{End, Item, Kind, ListError, ListSpec, Purpose};
pub use read::read_list;
pub use selection::select;
pub use view::{first_live, in_base, is_live, next_live, place_of, previous_live};
