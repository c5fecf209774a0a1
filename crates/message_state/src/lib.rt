//! What a session knows of a message: its mark, its row in a summary, and the text with its mark stamped on it.
#![tactic(auto)]

mod fields;
mod ids;
mod laws;
mod mark;
mod order;
mod row;
mod row_list;
mod row_texts;
mod shown;
mod stamp;
mod status;

pub use laws::{
    a_text_has_one_row, acts_by_the_table, comments_are_the_same, each_text_has_a_row,
    stamps_keep_texts_proper, stamps_keep_the_rest, stamps_read_back,
};
pub use mark::{Act, Flags, Mark, Standing, State, after};
pub use order::Order;
pub use row::{Row, row_of};
pub use row_list::RowList;
pub use row_texts::RowTexts;
pub use shown::Shown;
pub use stamp::{is_stamped, stamped};
pub use status::mark_of;
