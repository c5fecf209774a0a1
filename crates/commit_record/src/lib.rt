//! The record of a commit: its text, and the record that a text gives.
#![tactic(auto)]

mod error;
mod laws;
mod reader;
mod record;
mod valid;
mod way;
mod writer;

pub use error::RecordError;
pub use laws::a_text_has_one_record;
pub use reader::read;
pub use record::{Entry, EntryKind, Phase, Record};
pub use valid::{FILE_LIMIT, is_lawful, is_valid, most_files, nearest_moment};
pub use way::{Way, entry_for, way_of};
pub use writer::write;
