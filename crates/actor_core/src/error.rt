use mail_text::{Memory, Text};
use thiserror::Error;

/// Why actors can't begin.
#[derive(Debug, Drop, Error)]
pub enum CoreError {
    /// What stands as the record of the actor of this name is none, or can't be recovered.
    #[error("the record of {name} can't be recovered")]
    BadRecord { name: Text },
    /// This token is taken.
    #[error("the token {token} is taken")]
    TokenTaken { token: u64 },
    /// Memory ran out.
    #[error("out of memory")]
    Memory,
}

impl From<Memory> for CoreError {
    ghost use Rattle.std.specs.Prelude.{◌≡◌};
    ghost use Rattle.actor_core.specs.declared.error.CoreError.TheVariants.{Memory};

    ghost from_gives = { λ _ e. e ≡ Memory };

    fn from(_: Memory) -> CoreError {
        CoreError::Memory
    }
}
