use mail_text::Memory;
use thiserror::Error;

/// Why a line cuts the run off.
#[derive(Drop, Debug, Error)]
pub enum RunError {
    /// Output could not be written.
    #[error("output fault")]
    Output,
    /// A file could not be read or changed in a commit.
    #[error("disk fault")]
    Disk,
    /// Out of memory.
    #[error("out of memory")]
    Memory,
}

impl From<Memory> for RunError {
    ghost use Rattle.std.specs.Prelude.{◌≡◌};
    ghost use Rattle.session_state.specs.declared.error.RunError.TheVariants.{Memory};

    ghost from_gives = { λ _ e. e ≡ Memory };

    fn from(_: Memory) -> RunError {
        RunError::Memory
    }
}
