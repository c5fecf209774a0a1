//! What a draft that is done comes to: whom it goes to, the change that records it, the dead letter, and the lines that
//! say why it isn't sent.
#![tactic(auto)]

mod addressing;
mod laws;
mod lines;
mod recording;

pub use addressing::{Recipients, addressed, addressees};
pub use laws::addressees_in_order;
pub use lines::{names_refused, sender_ended, sender_not_run, too_many_recipients};
pub use recording::{dead, recorded};
