use mail_text::{Memory, Text};
use thiserror::Error;

/// Why a variable isn't set, or gives no number.
#[derive(Debug, Drop, Error)]
pub enum VarError {
    /// The name is empty, or holds `=` or a byte outside 33 to 126.
    #[error("bad name")]
    BadName,
    /// The variable of this name is unset, or its value is no number.
    #[error("{name}: not a number")]
    NotANumber { name: Text },
    /// The name is new, and 1,000 variables are set.
    #[error("too many variables")]
    TooMany,
    /// Memory ran out.
    #[error("out of memory")]
    Memory,
}

impl From<Memory> for VarError {
    ghost use Rattle.std.specs.Prelude.{◌≡◌};
    ghost use Rattle.mailx_vars.specs.declared.error.VarError.TheVariants.{Memory};

    ghost from_gives = { λ _ e. e ≡ Memory };

    fn from(_: Memory) -> VarError {
        VarError::Memory
    }
}

/// Why a file name stands for nothing.
#[derive(Debug, Drop, Error)]
pub enum NameError {
    /// The name is `#`, and there is no previous file.
    #[error("no previous file")]
    NoPrevious,
    /// The name begins with `+`, and the variable `folder` is unset or empty.
    #[error("folder is not set")]
    NoFolder,
    /// Memory ran out.
    #[error("out of memory")]
    Memory,
}

impl From<Memory> for NameError {
    ghost use Rattle.std.specs.Prelude.{◌≡◌};
    ghost use Rattle.mailx_vars.specs.declared.error.NameError.TheVariants.{Memory};

    ghost from_gives = { λ _ e. e ≡ Memory };

    fn from(_: Memory) -> NameError {
        NameError::Memory
    }
}
