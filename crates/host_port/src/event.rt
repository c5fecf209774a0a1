use mail_text::{Items, Text};

/// What happened at the edge of the program: one call of the host with what it gave, or one step of another.
#[derive(Drop)]
pub enum Event {
    /// Input was taken; no bytes are its end, or a fault.
    In {
        bytes: Text,
        failed: bool,
    },
    /// Output went out: all of what the call was given, or after a fault a front of it.
    Out {
        bytes: Text,
        failed: bool,
    },
    /// A file was loaded.
    Load {
        name: Text,
        seen: Seen,
    },
    /// A file was written whole: what stands at the name after the call.
    Stage {
        name: Text,
        bytes: Option<Text>,
        failed: bool,
    },
    /// A file was given another name, and stands in the place of what stood there.
    Publish {
        from: Text,
        to: Text,
        done: bool,
        failed: bool,
    },
    /// A file was given another tail: what stands behind its first `at` bytes after the call. A shorter file, or an
    /// absent one, stays as it was.
    Extend {
        name: Text,
        at: u64,
        tail: Text,
        failed: bool,
    },
    /// A file was taken away.
    Erase {
        name: Text,
        done: bool,
        failed: bool,
    },
    /// A lock was put.
    Lock {
        name: Text,
        token: u64,
        got: bool,
        failed: bool,
    },
    /// A lock of this owner was taken away.
    Unlock {
        name: Text,
        token: u64,
        done: bool,
        failed: bool,
    },
    /// A right was taken.
    Seize {
        name: Text,
        got: bool,
        failed: bool,
    },
    /// A right was given up.
    Release {
        name: Text,
    },
    /// A child ran to its end, or could not be run; without an answer and a fault, memory ran out.
    Child {
        program: Text,
        args: Items<Text>,
        input: Text,
        answer: Option<ChildAnswer>,
        failed: bool,
    },
    /// An editor was run on a text, as a file of this name; without an answer and a fault, memory ran out.
    Edit {
        name: Text,
        shell: Text,
        command: Text,
        text: Text,
        answer: Option<EditAnswer>,
        failed: bool,
    },
    /// The time was looked at: seconds since 1970-01-01 00:00:00 UTC.
    Now {
        seconds: i64,
    },
    /// Another program did a step.
    Foreign {
        step: ForeignStep,
    },
}

/// What a load saw at its step.
#[derive(Drop, Debug)]
pub enum Seen {
    /// The file, or its absence, and whether a lock on its name stood.
    Bytes { bytes: Option<Text>, held: bool },
    /// A file of this many bytes, more than a load takes.
    TooLarge { length: u64 },
    /// A fault of the disk.
    Failed,
    /// Memory ran out.
    Memory,
}

/// A step of another program.
#[derive(Drop, Debug)]
pub enum ForeignStep {
    /// The file has these bytes.
    Write { name: Text, bytes: Text },
    /// The file is absent.
    Remove { name: Text },
    /// A lock is put if none stands.
    Lock { name: Text, token: u64 },
    /// A lock of this owner is taken away.
    Unlock { name: Text, token: u64 },
    /// A right is taken that nobody has.
    Seize { name: Text },
    /// A right is given up that this run doesn't have.
    Release { name: Text },
}

/// Who has a right.
#[derive(Clone, Copy, Debug, PartialEq, Eq)]
pub enum Holder {
    /// This run.
    Own,
    /// Another program.
    Other,
}

/// What a load answers.
#[derive(Drop, Debug)]
pub struct LoadAnswer {
    /// The whole file, or None if it is absent.
    pub bytes: Option<Text>,
    /// Whether a lock on the name stood, whoever owns it.
    pub held: bool,
}

/// What a child answers.
#[derive(Drop, Debug)]
pub struct ChildAnswer {
    /// The number with which it ended, or -1 if it gave none.
    pub status: i32,
    /// What it wrote to its standard output, its first 16,777,216 bytes at most.
    pub output: Text,
    /// Whether it wrote more.
    pub cut: bool,
}

/// What an editor answers.
#[derive(Drop, Debug)]
pub struct EditAnswer {
    /// The number with which it ended, or -1 if it gave none.
    pub status: i32,
    /// The text that it left, its first 16,777,216 bytes at most.
    pub text: Text,
    /// Whether it left more.
    pub cut: bool,
}

/// What a failing call leaves, and what a run leaves that stops inside a call.
#[derive(Drop, Debug)]
pub enum Part {
    /// Nothing of the call was done.
    Before,
    /// All of it was done.
    After,
    /// These bytes stand: as the file, or as the tail. For a call that writes no bytes it counts as `Before`.
    Bytes(Text),
    /// No file stands. For a call that writes no whole file it counts as `Before`.
    Nothing,
}
