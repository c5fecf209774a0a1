use mail_text::{Memory, Text};
use thiserror::Error;

/// Why a recovery wasn't done.
#[derive(Debug, Drop, Error)]
pub enum RecoverError {
    /// Another has the right of this name.
    #[error("{name} is held by another")]
    Busy { name: Text },
    /// The file of the record is no record.
    #[error("not a record")]
    NotARecord,
    /// The file of this name has `length` bytes, more than a load takes.
    #[error("{name} is too large: {length} bytes")]
    TooLarge { name: Text, length: u64 },
    /// A call on the disk failed.
    #[error("disk fault")]
    Disk,
    /// Memory ran out.
    #[error("out of memory")]
    Memory,
}

impl From<Memory> for RecoverError {
    ghost use Rattle.std.specs.Prelude.{◌≡◌};
    ghost use Rattle.folder_recovery.specs.declared.error.RecoverError.TheVariants.{Memory};

    ghost from_gives = { λ _ e. e ≡ Memory };

    fn from(_: Memory) -> RecoverError {
        RecoverError::Memory
    }
}
