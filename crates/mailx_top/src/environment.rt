use mail_text::{Items, Text};

/// What a run takes from outside beside its words.
#[derive(Drop)]
pub struct Environment {
    /// The environment's variables with their values. Of several pairs of one name the first counts.
    pub pairs: Items<(Text, Text)>,
    /// The working folder, with its whole name. Empty if it isn't known: then names without a leading `/` go to the
    /// host as they are.
    pub folder: Text,
    /// Whether the input is a terminal.
    pub terminal: bool,
    /// A word that no other run has.
    pub token: u64,
}
