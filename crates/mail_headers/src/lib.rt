//! The header of a message's text: the From line, the fields in order with the lines that are no field, and the body
//! (RFC 5322, section 2, for texts of a mailbox file).
#![tactic(auto)]

mod cut;
mod entry;
mod header;
mod iterators;
mod laws;
mod unfold;

pub use entry::{EntryRef, FieldRef};
pub use header::{Header, cut_from_line, entries_in, from_line_in};
pub use iterators::{Entries, Fields};
pub use laws::{entries_make_the_header, parts_make_the_text};
pub use unfold::{UnfoldedValue, unfold_value, unfolded};
