// How far the bracket of an actor has come, as the machine of commit and recovery has it.

use commit_record::{Record, Way};
use mail_text::{Items, Text};

/// Whether the decision was passed when a call failed.
#[derive(Clone, Copy)]
pub(crate) enum Passed {
    Before,
    After,
    Unknown,
}

/// What was found as the record: none, one that is undone, or one that is carried out, with its moment.
#[derive(Clone, Copy)]
pub(crate) enum Found {
    Nothing,
    RolledBack(Option<i64>),
    Finished(Option<i64>),
}

/// Why a commit or a recovery isn't done.
#[derive(Drop)]
pub(crate) enum Refusal {
    /// Another has the right of this name, or the lock of this file.
    Busy(Text),
    /// What stands as the record is none.
    NotARecord,
    /// The file of this name has or would have so many bytes.
    TooLarge(Text, u64),
    /// The file of this name has changed at this message.
    Changed(Text, u64),
}

/// How a bracket ends.
#[derive(Drop)]
pub(crate) enum Ending {
    Done,
    Recovered(Found),
    Refused(Refusal),
    Failed(Passed),
    NoMemory,
}

/// What follows when a record is done with: the rest of the job, or the end.
#[derive(Drop)]
pub(crate) enum Then {
    GoOn,
    Answer(Ending),
}

/// A file that comes to be so, and what is known to stand as its staged file.
#[derive(Drop)]
pub(crate) struct Item {
    pub name: Text,
    pub way: Way,
    pub staged: Option<Text>,
}

/// A file that was loaded, how it comes to be, and what is staged for it.
#[derive(Drop)]
pub(crate) struct Made {
    pub name: Text,
    pub seen: Option<Text>,
    pub way: Way,
    pub content: Text,
}

/// What is next for a record that is being done with: one name or file, those after it, and the names to unlock then.
#[derive(Drop)]
pub(crate) enum Closing {
    Undoing(Text, Items<Text>, Items<Text>),
    Placing(Item, Items<Item>, Items<Text>),
    Testing(Item, Items<Item>, Items<Text>),
    Removing(Item, Items<Item>, Items<Text>),
    Extending(Item, Items<Item>, Items<Text>),
    Discarding(Item, Items<Item>, Items<Text>),
    Unlocking(Text, Items<Text>),
    Erasing,
}

/// How far a bracket has come.
#[derive(Drop)]
pub(crate) enum Stand {
    Seizing,
    Timing(i64),
    Looking,
    Closing(Record, Closing, Then),
    Clearing(Found),
    Preparing,
    Publishing,
    Locking(Items<Text>, Text, Items<Text>),
    Loading(Items<Made>, Text, Items<Text>),
    Staging(Items<Text>, Items<Made>, Made, Items<Made>),
    Deciding(Items<Made>),
    Committing(Items<Made>),
    Checking,
    Releasing(Ending),
    Ended(Ending),
}

/// What a call answers.
#[derive(Drop)]
pub(crate) enum Reply {
    Went(bool),
    Saw(Option<Text>),
    Long(u64),
    Short,
    Fault,
}
