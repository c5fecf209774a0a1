use mail_text::Memory;
use thiserror::Error;

/// Why a word gives no criterion.
#[derive(Clone, Copy, Debug, PartialEq, Eq, Error)]
pub enum SearchError {
    /// The word is none.
    #[error("not a search criterion")]
    Syntax,
    /// Memory ran out.
    #[error("out of memory")]
    Memory,
}

impl From<Memory> for SearchError {
    ghost use Rattle.std.specs.Prelude.{◌≡◌};
    ghost use Rattle.mail_search.specs.declared.error.SearchError.TheVariants.{Memory};

    ghost from_gives = { λ _ e. e ≡ Memory };

    fn from(_: Memory) -> SearchError {
        SearchError::Memory
    }
}
