ghost use Rattle.std.specs.Prelude.{◌≡◌, ◌≤◌, ◌-◌, ◌++◌, ℕ, length, take, MatchOption, false, true};
ghost use Rattle.std.specs.List.{list_all};
ghost use Rattle.mail_addresses.specs.Lexical.{begins};
ghost use Rattle.mail_addresses.specs.Forms.{is_gap, is_solid, Lacks, IsCutAtMark, is_quoted, is_domain_literal, is_dot_atom, is_one, is_local_part, is_domain, IsSpec};
ghost use Rattle.mail_addresses.specs.Tokens.{tokens_in};

use crate::scan::first_token;

/// Whether all tokens are blanks and comments.
pub(crate) fn are_gaps(bytes: &[u8]) -> bool
    ensures { result ≡ list_all is_gap (tokens_in bytes.now) }
{
    let mut rest = bytes;
    while let Some((token, after)) = first_token(rest) {
        if !token.is_gap() {
            return false;
        }
        rest = after;
    }
    true
}

/// What stands before the rest, with which the bytes end.
pub(crate) fn before<'a>(bytes: &'a [u8], rest: &[u8]) -> &'a [u8]
    requires { length rest.now ≤ length bytes.now }
    ensures { result.now ≡ take (length bytes.now - length rest.now) bytes.now }
{
    let (front, _) = bytes.split_at(bytes.len() - rest.len());
    front
}

/// What stands before the first mark of this byte, and after it.
pub(crate) fn split_at_mark(bytes: &[u8], byte: u8) -> Option<(&[u8], &[u8])>
    ensures { MatchOption result
        (Lacks byte (tokens_in bytes.now))
        (λ parts. IsCutAtMark byte (tokens_in bytes.now) (tokens_in parts.0.now) (tokens_in parts.1.now)) }
{
    let mut rest = bytes;
    while let Some((token, after)) = first_token(rest) {
        if token.is_mark(byte) {
            return Some((before(bytes, rest), after));
        }
        rest = after;
    }
    None
}

/// Whether they are atoms joined by single dots.
fn is_dot_atom(bytes: &[u8]) -> bool
    ensures { result ≡ is_dot_atom (tokens_in bytes.now) }
{
    let mut rest = bytes;
    while let Some((part, after)) = first_token(rest) {
        if !part.is_atom() {
            return false;
        }
        match first_token(after) {
            None => return true,
            Some((dot, later)) => {
                if !dot.is_mark(b'.') {
                    return false;
                }
                rest = later;
            }
        }
    }
    false
}

/// Whether they are a local part.
pub(crate) fn is_local_part(bytes: &[u8]) -> bool
    ensures { result ≡ is_local_part (tokens_in bytes.now) }
{
    is_dot_atom(bytes) || is_one_quoted(bytes)
}

fn is_one_quoted(bytes: &[u8]) -> bool
    ensures { result ≡ is_one is_quoted (tokens_in bytes.now) }
{
    match first_token(bytes) {
        Some((only, after)) => after.is_empty() && only.is_quoted(),
        None => false,
    }
}

/// Whether they are a domain.
pub(crate) fn is_domain(bytes: &[u8]) -> bool
    ensures { result ≡ is_domain (tokens_in bytes.now) }
{
    is_dot_atom(bytes) || is_one_domain_literal(bytes)
}

fn is_one_domain_literal(bytes: &[u8]) -> bool
    ensures { result ≡ is_one is_domain_literal (tokens_in bytes.now) }
{
    match first_token(bytes) {
        Some((only, after)) => after.is_empty() && only.is_domain_literal(),
        None => false,
    }
}

/// The blanks and comments at the front, and what follows them.
pub(crate) fn split_after_gaps(bytes: &[u8]) -> (&[u8], &[u8])
    ensures cut { tokens_in bytes.now ≡ tokens_in result.0.now ++ tokens_in result.1.now }
    ensures gaps { list_all is_gap (tokens_in result.0.now) ≡ true }
    ensures ends { begins is_gap (tokens_in result.1.now) ≡ false }
{
    let mut rest = bytes;
    while let Some((token, after)) = first_token(rest) {
        if !token.is_gap() {
            return (before(bytes, rest), rest);
        }
        rest = after;
    }
    (before(bytes, rest), rest)
}

/// What stands before the first blanks or comment, and the others.
pub(crate) fn split_at_gap(bytes: &[u8]) -> (&[u8], &[u8])
    ensures cut { tokens_in bytes.now ≡ tokens_in result.0.now ++ tokens_in result.1.now }
    ensures solid { list_all is_solid (tokens_in result.0.now) ≡ true }
    ensures ends { begins is_solid (tokens_in result.1.now) ≡ false }
{
    let mut rest = bytes;
    while let Some((token, after)) = first_token(rest) {
        if token.is_gap() {
            return (before(bytes, rest), rest);
        }
        rest = after;
    }
    (before(bytes, rest), rest)
}

/// How many bytes the bytes have, if they are a local part.
fn whole_local(bytes: &[u8]) -> Option<usize>
    ensures { MatchOption result
        (is_local_part (tokens_in bytes.now) ≡ false)
        (λ n. IsSpec (tokens_in bytes.now) n) }
{
    if is_local_part(bytes) {
        Some(bytes.len())
    } else {
        None
    }
}

/// How many bytes the local part has, if the bytes are a spec.
pub(crate) fn local_length(bytes: &[u8]) -> Option<usize>
    ensures { MatchOption result
        ((n : ℕ) → IsSpec (tokens_in bytes.now) n → ⊥)
        (λ n. IsSpec (tokens_in bytes.now) n) }
{
    let parts = split_at_mark(bytes, b'@');
    match parts {
        None => whole_local(bytes),
        Some((local, domain)) => {
            if is_local_part(local) && is_domain(domain) {
                Some(local.len())
            } else {
                None
            }
        }
    }
}
