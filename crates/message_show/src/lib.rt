//! What is shown of messages: summary lines, and texts without the fields that are not wanted.
#![tactic(auto)]

mod columns;
mod field_sets;
mod laws;
mod summary;
mod text;

pub use field_sets::FieldSets;
pub use laws::all_fields_make_the_text;
pub use summary::{page, page_with_current, summary_line, summary_lines};
pub use text::{How, shown_text, top};
