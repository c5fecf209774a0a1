//! What a user may count on when messages are filed, edited and left, in words that aren't the code's: laws alone.
#![tactic(auto)]

mod laws;

pub use laws::{
    a_receipt_tells_what_is_there, an_edit_leaves_the_others, each_flag_stands_alone,
    other_folders_leave_mbox, quits_fill_mbox, quits_keep_the_order, what_is_gathered_is_put,
    what_is_marked_saved_is_put,
};
