ghost use Rattle.std.specs.Prelude.{◌≡◌, ◌||◌, IfOk, IfErr};
ghost use Rattle.mail_search.specs.Grammar.{is_enclosed, IsCriterion};
ghost use Rattle.mail_search.specs.Keys.{Key};
ghost use Rattle.mail_search.specs.Tokens.{is_closer, token_of};
ghost use Rattle.mail_search.specs.declared.error.SearchError.TheVariants.{Syntax};

use crate::criterion::Criterion;
use crate::error::SearchError;
use crate::reader::Reader;
use crate::token::{Token, first_token};
use std::alloc::Global;

// Whether the word begins with `(` and ends with `)`.
fn is_enclosed(word: &[u8]) -> bool
    ensures { result ≡ is_enclosed word.now }
{
    match word {
        [first, .., last] => *first == b'(' && *last == b')',
        _ => false,
    }
}

// Whether the token may stand here; `free` if any one may without a blank before it.
fn may_stand(free: bool, token: &Token<'_>) -> bool
    ensures { result ≡ (free || is_closer (token_of token.now)) }
{
    free || token.is_closer()
}

/// The criterion that the word is, parentheses and all. `Syntax` comes exactly if it is none, and `Memory` only if memory
/// runs out. A word has one criterion at most.
pub fn read_criterion(alloc: Global, word: &[u8]) -> Result<Criterion, SearchError>
    ensures ok { IfOk result (λ c. IsCriterion word.now c) }
    ensures err { IfErr result (λ e. e ≡ Syntax → (k : Key) → IsCriterion word.now k → ⊥) }
{
    if !is_enclosed(word) {
        return Err(SearchError::Syntax);
    }
    let mut reader = Reader::new(alloc);
    // whether a token may stand here without a blank before it
    let mut free = true;
    let mut rest = word;
    while let Some((token, after)) = first_token(alloc, rest)? {
        rest = after;
        if token.is_gap() {
            free = true;
        } else {
            if !may_stand(free, &token) {
                return Err(SearchError::Syntax);
            }
            free = token.is_opener();
            reader.take(alloc, token)?;
        }
    }
    match reader.criterion() {
        Some(criterion) => Ok(criterion),
        None => Err(SearchError::Syntax),
    }
}
