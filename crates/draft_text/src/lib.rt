//! A draft, a message that is being written, and its texts: the message that the sender gets, and the text that is put
//! into a mailbox. And the draft that answers a message.
#![tactic(auto)]

mod body;
mod draft;
mod fields;
mod laws;
mod parts;
mod reply;
mod texts;

pub use draft::Draft;
pub use fields::joined;
pub use laws::{
    a_draft_can_be_put_into_a_mailbox, a_draft_of_flat_parts_stays, a_sent_draft_reads_back,
    a_stored_draft_reads_back, addresses_are_what_is_read, an_opening_line_reads_back,
    answers_go_to_each_once, each_field_is_found, plain_bodies_are_stored_as_they_are,
};
pub use parts::{flat, flattened};
pub use reply::{ReplyError, ReplyHow, answered, reply_to};
pub use texts::{mbox_text, message_text};
