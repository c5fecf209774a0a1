// How far a job has come, by numbers: of entries in a record, and of files in a plan.

/// Whether the decision was passed when a call on the disk failed.
#[derive(Clone, Copy, Debug, PartialEq, Eq)]
pub enum Passed {
    /// It wasn't: nothing is changed.
    Before,
    /// It was: the changes are made, or will be by a recovery.
    After,
    /// It can't be told: the decision itself failed, and so did the look at the record that followed.
    Unknown,
}

/// What a recovery found.
#[derive(Clone, Copy, Debug, PartialEq, Eq)]
pub enum Recovered {
    /// No record stood.
    Nothing,
    /// A commit that wasn't decided was undone. Its record had this moment, in seconds since 1970 in UTC.
    RolledBack { moment: Option<i64> },
    /// A commit that was decided was carried out.
    Finished { moment: Option<i64> },
}

/// How a job ends. A file goes by its number in the plan, and an entry by that in the record that was found, from 0.
#[derive(Clone, Copy)]
pub enum End {
    /// A commit was decided and carried out.
    Done,
    /// A recovery is done.
    Recovered(Recovered),
    /// Another has the lock of this file.
    Busy(usize),
    /// What stands as the record is none.
    NotARecord,
    /// The record has this number of bytes.
    RecordTooLarge(u64),
    /// The staged file of this entry of the record that was found has this number of bytes.
    StagedTooLarge(usize, u64),
    /// This file has or would have this number of bytes.
    TooLarge(usize, u64),
    /// This file has changed at this message.
    Changed(usize, u64),
    /// A call failed.
    Failed(Passed),
    /// Memory ran out.
    NoMemory,
}

/// What follows when a record is done with.
#[derive(Clone, Copy)]
pub enum Then {
    /// It was found: the rest of the job follows.
    GoOn,
    /// It is the job's own: the end follows.
    Answer(End),
}

/// How far a job has come: what its next call is for. Numbers are those of the entry or the file that is
/// next, and of how many there are to do.
#[derive(Clone, Copy)]
pub enum Step {
    /// The record that stands is loaded.
    Looking,
    /// A staged file of this entry is taken away, up to the second number; as many locks as the third follow.
    Undoing(usize, usize, usize, Then),
    /// The staged file of this entry is put in place.
    Placing(usize, Then),
    /// The staged file of this entry of a record that was found, which removes or extends a file, is looked for.
    Testing(usize),
    /// The file of this entry is taken away.
    Removing(usize, Then),
    /// The file of this entry gets its tail.
    Extending(usize, Then),
    /// Then its staged file is taken away.
    Discarding(usize, Then),
    /// The lock of this entry is taken away, up to the second number.
    Unlocking(usize, usize, Then),
    /// The record is taken away.
    Erasing(Then),
    /// What is being made as the record is taken away.
    Clearing(Recovered),
    /// The record before the decision is made.
    Preparing,
    /// It takes its place.
    Publishing,
    /// This file is locked.
    Locking(usize),
    /// This file is loaded.
    Loading(usize),
    /// This file is staged.
    Staging(usize),
    /// The record of the decision is made.
    Deciding,
    /// It takes its place.
    Committing,
    /// The record is looked at after a decision that failed.
    Checking,
    /// The right is given up.
    Releasing(End),
    /// All is done.
    Ended(End),
}
