use mail_text::Memory;
use thiserror::Error;

/// Why a change has no outcome.
#[derive(Debug, Drop, PartialEq, Eq, Error)]
pub enum ChangeError {
    /// The file's messages don't begin with those of the folder: `at` is the number, from 1, of the
    /// first message of the folder that the file lacks or has otherwise, and 1 for a file that is no
    /// mailbox.
    #[error("changed at message {at}")]
    Changed { at: u64 },
    /// Memory ran out.
    #[error("out of memory")]
    Memory,
}

impl From<Memory> for ChangeError {
    ghost use Rattle.std.specs.Prelude.{◌≡◌};
    ghost use Rattle.folder_change.specs.declared.error.ChangeError.TheVariants.{Memory};

    ghost from_gives = { λ _ e. e ≡ Memory };

    fn from(_: Memory) -> ChangeError {
        ChangeError::Memory
    }
}
