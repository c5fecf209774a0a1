ghost use Rattle.std.specs.Prelude.{◌≡◌, ◌==◌, ◌∷◌, ◌++◌, [], ℕ, List};
ghost use Rattle.std.specs.List.{list_any};
ghost use Rattle.mail_addresses.specs.Lexical.{IsQuotedContent};
ghost use Rattle.message_list.specs.LocalParts.{before_at, local_part};
ghost use Rattle.message_list.specs.Naming.{is_author};

use mail_addresses::quote_end;
use mail_text::same_ascii;

/// The local part of an author's bare address: the quoted string that it begins with, if that is closed, else
/// the bytes before the first `@`, or all if there is none (RFC 5322, section 3.4.1). It takes no memory.
pub fn author_local_part(author: &[u8]) -> &[u8]
    ensures value { result.now ≡ local_part author.now }
    ensures quoted { (inside after : List ℕ) → IsQuotedContent inside → author.now ≡ 34 ∷ (inside ++ 34 ∷ after)
        → result.now ≡ 34 ∷ (inside ++ 34 ∷ []) }
    ensures other { ((inside after : List ℕ) → IsQuotedContent inside → author.now ≡ 34 ∷ (inside ++ 34 ∷ after) → ⊥)
        → result.now ≡ before_at author.now }
{
    local_part(author)
}

// The local part of an author's bare address, by its definition.
fn local_part(author: &[u8]) -> &[u8]
    ensures { result.now ≡ local_part author.now }
{
    match author {
        [] => author,
        [b'"', inside @ ..] => match quote_end(inside) {
            Some(end) => {
                let (local, _) = author.split_at(end + 2);
                local
            }
            None => before_at(author),
        },
        _ => before_at(author),
    }
}

/// The bytes of a name before its first `@`, or all of them if there is none. It takes no memory.
pub fn before_at(author: &[u8]) -> &[u8]
    ensures { result.now ≡ before_at author.now }
{
    for (i, b) in author.iter().enumerate() {
        if *b == b'@' {
            let (local, _) = author.split_at(i);
            return local;
        }
    }
    let (local, _) = author.split_at(author.len());
    local
}

// Whether the author is the word, or, if the word has no `@`, the author's local part is.
pub(crate) fn is_author(word: &[u8], author: &[u8]) -> bool
    ensures { result ≡ is_author word.now author.now }
{
    same_ascii(author, word) || (!has_at(word) && same_ascii(author_local_part(author), word))
}

// Whether there is a `@`.
fn has_at(word: &[u8]) -> bool
    ensures { result ≡ list_any (λ b. b == 64) word.now }
{
    word.iter().any(|b| *b == b'@')
}
