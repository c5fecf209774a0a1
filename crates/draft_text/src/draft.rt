use mail_text::{Items, Text};

/// A message that is being written. A part that is empty makes no field of the message.
#[derive(Drop)]
pub struct Draft {
    /// The names to whom it goes (RFC 5322, section 3.6.3).
    pub to: Items<Text>,
    /// The names that get a copy.
    pub cc: Items<Text>,
    /// The names that get a copy of which the text says nothing.
    pub bcc: Items<Text>,
    /// What it is about (section 3.6.5).
    pub subject: Text,
    /// Who writes it (section 3.6.2).
    pub from: Text,
    /// The id of the message that it answers (section 3.6.4).
    pub reply: Text,
    /// The ids of the messages that it follows.
    pub references: Items<Text>,
    /// The body (section 2.3).
    pub body: Text,
}
