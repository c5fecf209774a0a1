use commit_driver::Passed;
use mail_text::{Memory, Text};
use thiserror::Error;

/// Why a commit wasn't done.
#[derive(Debug, Drop, Error)]
pub enum CommitError {
    /// The changes name `count` files, more than one commit takes.
    #[error("too many names: {count}")]
    TooManyNames { count: u64 },
    /// Another has the right or the lock of this name.
    #[error("{name} is held by another")]
    Busy { name: Text },
    /// The file of the record is no record.
    #[error("not a record")]
    Record,
    /// The file of this name has changed at this message.
    #[error("{name} has changed at message {at}")]
    Changed { name: Text, at: u64 },
    /// The file of this name has or would have `length` bytes.
    #[error("{name} is too large: {length} bytes")]
    TooLarge { name: Text, length: u64 },
    /// A call on the disk failed.
    #[error("disk fault")]
    Disk { passed: Passed },
    /// Memory ran out.
    #[error("out of memory")]
    Memory,
}

impl From<Memory> for CommitError {
    ghost use Rattle.std.specs.Prelude.{◌≡◌};
    ghost use Rattle.folder_commit.specs.declared.error.CommitError.TheVariants as error;

    ghost from_gives = { λ _ e. e ≡ error.Memory };

    fn from(_: Memory) -> CommitError {
        CommitError::Memory
    }
}
