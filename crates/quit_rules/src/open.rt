use mail_text::{Items, Text};
use mbox_scan::Folder;
use message_state::Mark;

/// An open folder. Calls that take one ask for a valid one, which has as many marks as its folder has messages.
#[derive(Drop)]
pub struct Open {
    /// The name of its file.
    pub name: Text,
    /// Whether it is the system mailbox.
    pub system: bool,
    /// Its bytes and messages.
    pub folder: Folder,
    /// The mark of each message.
    pub marks: Items<Mark>,
}
