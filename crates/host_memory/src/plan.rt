use host_port::{ChildAnswer, EditAnswer, ForeignStep, Part};
use mail_text::{Items, Text};

/// What happens in a host in memory. Its calls are numbered from 1.
#[derive(Drop)]
pub struct Plan {
    /// The time that each look at it tells: seconds since 1970-01-01 00:00:00 UTC.
    pub now: i64,
    /// The most bytes that one fill gives, at least 1.
    pub chunk: usize,
    /// The steps of others, each before the call of its number.
    pub foreign: Items<(u64, ForeignStep)>,
    /// The calls that fail, with what they leave.
    pub fails: Items<(u64, Part)>,
    /// What children answer, in order: each child that runs takes the next. Once all are used up a child answers
    /// status 0 and no output.
    pub children: Items<ChildAnswer>,
    /// What editors answer, in order: each editor that runs takes the next. Once all are used up an editor answers
    /// status 0 and the text as it was given.
    pub edits: Items<EditAnswer>,
}
