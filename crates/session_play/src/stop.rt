use mail_text::Memory;
use std::alloc::AllocError;
use thiserror::Error;

/// Why a run is cut off.
#[derive(Clone, Copy, Debug, PartialEq, Eq, Error)]
pub enum Stop {
    /// Input could not be read.
    #[error("input fault")]
    Input,
    /// Output could not be written.
    #[error("output fault")]
    Output,
    /// A file could not be read or changed.
    #[error("disk fault")]
    Disk,
    /// More input was taken than a run may take.
    #[error("too much input")]
    TooMuch,
    #[error("out of memory")]
    Memory,
}

impl From<AllocError> for Stop {
    ghost use Rattle.std.specs.Prelude.{◌≡◌};
    ghost use Rattle.session_play.specs.declared.stop.Stop.TheVariants as stop;

    ghost from_gives = { λ _ e. e ≡ stop.Memory };

    fn from(_: AllocError) -> Self {
        Stop::Memory
    }
}

impl From<Memory> for Stop {
    ghost use Rattle.std.specs.Prelude.{◌≡◌};
    ghost use Rattle.session_play.specs.declared.stop.Stop.TheVariants as stop;

    ghost from_gives = { λ _ e. e ≡ stop.Memory };

    fn from(_: Memory) -> Self {
        Stop::Memory
    }
}
