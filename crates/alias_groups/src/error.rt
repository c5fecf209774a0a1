use mail_text::Memory;
use thiserror::Error;

/// Why an alias takes no further members.
#[derive(Debug, Drop, Error)]
pub enum AliasError {
    /// All aliases together would have more than 100,000 members.
    #[error("too many aliases")]
    TooMany,
    /// Memory ran out.
    #[error("out of memory")]
    Memory,
}

impl From<Memory> for AliasError {
    ghost use Rattle.std.specs.Prelude.{◌≡◌};
    ghost use Rattle.alias_groups.specs.declared.error.AliasError.TheVariants.{Memory};

    ghost from_gives = { λ _ e. e ≡ Memory };

    fn from(_: Memory) -> AliasError {
        AliasError::Memory
    }
}

/// Why names aren't expanded.
#[derive(Debug, Drop, Error)]
pub enum ExpandError {
    /// There are more than 10,000 names.
    #[error("too many recipients")]
    TooMany,
    /// Memory ran out.
    #[error("out of memory")]
    Memory,
}

impl From<Memory> for ExpandError {
    ghost use Rattle.std.specs.Prelude.{◌≡◌};
    ghost use Rattle.alias_groups.specs.declared.error.ExpandError.TheVariants.{Memory};

    ghost from_gives = { λ _ e. e ≡ Memory };

    fn from(_: Memory) -> ExpandError {
        ExpandError::Memory
    }
}
