ghost use Rattle.std.specs.Prelude.{⊤};

use std::alloc::{AllocError, AllocFailed};
use thiserror::Error;

/// Memory ran out: the one error of calls that do nothing else that can fail.
#[derive(Clone, Copy, Debug, PartialEq, Eq, Error)]
#[error("out of memory")]
pub struct Memory;

impl From<AllocError> for Memory {
    ghost from_gives = { λ _ _. ⊤ };

    fn from(_: AllocError) -> Self {
        Memory
    }
}

impl<T: Drop> From<AllocFailed<T>> for Memory {
    ghost from_gives = { λ _ _. ⊤ };

    fn from(_: AllocFailed<T>) -> Self {
        Memory
    }
}
