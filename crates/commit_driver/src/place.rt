// What a job is made of before it begins, and what it keeps while it goes on.
ghost use Rattle.std.specs.Prelude.{◌≡◌};
ghost use Rattle.commit_driver.specs.Places.{begun};

use crate::Step;
use commit_record::{Phase, Record, Way};
use mail_text::{Items, Text};
use std::alloc::Global;

/// The names and texts of a job, made before it begins.
#[derive(Drop)]
pub struct Plan {
    /// The name of the actor's record.
    pub record: Text,
    /// The name where a record is made.
    pub new: Text,
    /// The name of the actor's right.
    pub right: Text,
    /// Whether the job is a commit; a recovery has no files.
    pub commits: bool,
    /// The record of the decision with the files in order, as if all were replaced.
    pub value: Record,
    /// The names where the files are made.
    pub staged: Items<Text>,
    /// The text of the record before the decision.
    pub prepare: Text,
}

/// How far a job has come, and what it has found and loaded.
#[derive(Drop)]
pub struct Place {
    /// What is next.
    pub step: Step,
    /// The record that was found, with no entry if none was.
    pub found: Record,
    /// The staged names of its entries.
    pub found_staged: Items<Text>,
    /// What was seen of the staged file of the entry that is next.
    pub seen: Option<Text>,
    /// The files that were loaded so far, and then what is to be staged for them: as many as the plan has. Of a file that
    /// is only added to, what stays isn't held once that is known.
    pub files: Items<Option<Text>>,
    /// How the files come to be, once that is known.
    pub ways: Items<Way>,
    /// The text of the record of the decision, once it is known how the files come to be.
    pub go: Text,
}

impl Place {
    /// A job whose right was just taken, with room for its files. It takes no memory.
    pub fn new(alloc: Global, files: Items<Option<Text>>) -> Place
        ensures { result ≡ begun files }
    {
        Place {
            step: Step::Looking,
            found: Record {
                phase: Phase::Prepare,
                token: 0,
                moment: None,
                entries: Items::new(alloc),
            },
            found_staged: Items::new(alloc),
            seen: None,
            files,
            ways: Items::new(alloc),
            go: Text::new(alloc),
        }
    }
}
