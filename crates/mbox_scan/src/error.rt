use mail_text::Memory;
use std::alloc::{AllocError, AllocFailed};
use thiserror::Error;

/// Why bytes open as no folder.
#[derive(Debug, Drop, PartialEq, Eq, Error)]
pub enum ScanError {
    /// There are bytes, and no message starts at the first of them.
    #[error("not a mailbox")]
    NotAMailbox,
    /// More messages start than a folder may have.
    #[error("{count} messages are too many")]
    TooMany { count: u64 },
    /// Memory ran out.
    #[error("out of memory")]
    Memory,
}

impl From<Memory> for ScanError {
    ghost use Rattle.std.specs.Prelude.{◌≡◌};
    ghost use Rattle.mbox_scan.specs.declared.error.ScanError.TheVariants.{Memory};

    ghost from_gives = { λ _ e. e ≡ Memory };

    fn from(_: Memory) -> ScanError {
        ScanError::Memory
    }
}

impl<T: Drop> From<AllocFailed<T>> for ScanError {
    ghost use Rattle.std.specs.Prelude.{◌≡◌};
    ghost use Rattle.mbox_scan.specs.declared.error.ScanError.TheVariants.{Memory};

    ghost from_gives = { λ _ e. e ≡ Memory };

    fn from(_: AllocFailed<T>) -> ScanError {
        ScanError::Memory
    }
}

/// Why a folder doesn't grow.
#[derive(Debug, Drop, PartialEq, Eq, Error)]
pub enum GrowError {
    /// The bytes that came change a text of the folder, or begin no message.
    #[error("not a message")]
    NotAMessage,
    /// More messages would start than a folder may have.
    #[error("{count} messages are too many")]
    TooMany { count: u64 },
    /// Memory ran out.
    #[error("out of memory")]
    Memory,
}

impl From<Memory> for GrowError {
    ghost use Rattle.std.specs.Prelude.{◌≡◌};
    ghost use Rattle.mbox_scan.specs.declared.error.GrowError.TheVariants.{Memory};

    ghost from_gives = { λ _ e. e ≡ Memory };

    fn from(_: Memory) -> GrowError {
        GrowError::Memory
    }
}

impl From<AllocError> for GrowError {
    ghost use Rattle.std.specs.Prelude.{◌≡◌};
    ghost use Rattle.mbox_scan.specs.declared.error.GrowError.TheVariants.{Memory};

    ghost from_gives = { λ _ e. e ≡ Memory };

    fn from(_: AllocError) -> GrowError {
        GrowError::Memory
    }
}
