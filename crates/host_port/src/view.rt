use mail_text::{Items, Text};

/// A disk as a list of files and a list of the owners of locks. Of several pairs of one name the first counts.
#[derive(Drop)]
pub struct DiskView {
    pub files: Items<(Text, Text)>,
    pub locks: Items<(Text, u64)>,
}
