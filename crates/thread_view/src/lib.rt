//! Views of a folder: the messages by number, in threads, or sorted by a key.
#![tactic(auto)]

mod cycles;
mod kin;
mod laws;
mod parents;
mod sorting;
mod threads;
mod view;
mod views;
mod walk;

pub use laws::{threads_stand_together, views_are_alike};
pub use view::{Key, View, ViewKind};
pub use views::view_of;
