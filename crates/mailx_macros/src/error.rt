use mail_text::Memory;
use thiserror::Error;

/// Why a definition isn't begun, or takes no line.
#[derive(Debug, Drop, Error)]
pub enum MacroError {
    /// A definition is under way, or its line begins another.
    #[error("define inside define")]
    Nested,
    /// A macro of this name is defined.
    #[error("already defined")]
    Taken,
    /// 1,000 macros are defined, or all bodies together have 100,000 lines.
    #[error("too many macros")]
    TooMany,
    /// Memory ran out.
    #[error("out of memory")]
    Memory,
}

impl From<Memory> for MacroError {
    ghost use Rattle.std.specs.Prelude.{◌≡◌};
    ghost use Rattle.mailx_macros.specs.declared.error.MacroError.TheVariants.{Memory};

    ghost from_gives = { λ _ e. e ≡ Memory };

    fn from(_: Memory) -> MacroError {
        MacroError::Memory
    }
}
