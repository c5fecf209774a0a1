use mail_text::Memory;
use thiserror::Error;

/// Why no record is read.
#[derive(Clone, Copy, Debug, PartialEq, Eq, Error)]
pub enum RecordError {
    /// The bytes aren't the text of a valid record.
    #[error("not a record")]
    NotARecord,
    /// Memory ran out.
    #[error("out of memory")]
    Memory,
}

impl From<Memory> for RecordError {
    ghost use Rattle.std.specs.Prelude.{◌≡◌};
    ghost use Rattle.commit_record.specs.declared.error.RecordError.TheVariants.{Memory};

    ghost from_gives = { λ _ e. e ≡ Memory };

    fn from(_: Memory) -> RecordError {
        RecordError::Memory
    }
}
