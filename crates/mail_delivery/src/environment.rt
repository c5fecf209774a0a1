use mail_text::{Items, Text};

/// What a delivery takes from outside beside its words.
#[derive(Drop)]
pub struct Environment {
    /// The environment's variables with their values. Of several pairs of one name the first counts.
    pub pairs: Items<(Text, Text)>,
    /// A word that no other run has.
    pub token: u64,
}
