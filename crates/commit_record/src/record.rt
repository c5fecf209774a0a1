use mail_text::{Items, Text};

/// How far a commit has come.
#[derive(Clone, Copy, Debug, PartialEq, Eq)]
pub enum Phase {
    /// What is done so far is undone.
    Prepare,
    /// What isn't done yet is done.
    Go,
}

/// What becomes of a file.
#[derive(Clone, Copy, Debug, PartialEq, Eq)]
pub enum EntryKind {
    /// The staged file takes its place.
    Replace,
    /// It is taken away if its staged file stands.
    Remove,
    /// What is staged stands behind its first bytes.
    Extend,
}

/// A file that a commit changes.
#[derive(Debug, Drop)]
pub struct Entry {
    /// What becomes of the file.
    pub kind: EntryKind,
    /// How many of its bytes stay, if it is extended; else 0.
    pub at: u64,
    /// The file's name.
    pub name: Text,
}

/// The record of a commit.
#[derive(Drop)]
pub struct Record {
    /// How far the commit has come.
    pub phase: Phase,
    /// The number that the commit's locks and staged files bear.
    pub token: u64,
    /// When the commit began, in seconds since 1970 in UTC. A record of version 1 has no moment.
    pub moment: Option<i64>,
    /// The files that it changes, in order.
    pub entries: Items<Entry>,
}
