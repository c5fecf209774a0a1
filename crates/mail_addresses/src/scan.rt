ghost use Rattle.std.specs.Prelude.{◌≡◌, ◌≢◌, ◌==◌, ◌≤◌, ◌<◌, ◌+◌, ◌++◌, ◌∷◌, [], length, take, drop, true, false, ℕ, List, IfOk, OnOk, IfSome, MatchOption};
ghost use Rattle.std.specs.List.{list_all, list_any};
ghost use Rattle.mail_addresses.specs.Lexical.{is_blank_byte, is_special, is_atom_byte, begins, IsCommentContent, IsQuotedContent, IsLiteralContent, IsEnd, unclosed, text_of, IsToken};
ghost use Rattle.mail_addresses.specs.Lexeme.{lexeme};
ghost use Rattle.mail_addresses.specs.Tokens.{unquote};
ghost use Rattle.mail_addresses.specs.Forms.{unescaped};

use crate::token::{Kind, Token};
use mail_text::{Memory, Text};
use memchr::memchr;

/// Whether the byte is a space or a tab.
#[tactic(auto, unfolding(crate::specs::Lexical::is_blank_byte))]
fn is_blank_byte(b: u8) -> bool
    ensures { result ≡ is_blank_byte b }
{
    b == b' ' || b == b'\t'
}

/// Whether a blank is among the bytes.
pub(crate) fn has_blank(bytes: &[u8]) -> bool
    ensures { result ≡ list_any is_blank_byte bytes.now }
{
    bytes.iter().any(|b| is_blank_byte(*b))
}

/// Whether atoms are made of this byte. Most are letters and digits, which are told by their place alone.
fn is_atom_byte(b: u8) -> bool
    ensures { result ≡ is_atom_byte b }
{
    if b > b']' {
        b != 127
    } else if b >= b'A' && b <= b'Z' {
        true
    } else if b >= b'0' && b <= b'9' {
        true
    } else {
        is_rarer_atom_byte(b)
    }
}

/// Whether atoms are made of this byte, which may be any.
#[tactic(auto, unfolding(crate::specs::Lexical::is_special, crate::specs::Lexical::is_atom_byte))]
fn is_rarer_atom_byte(b: u8) -> bool
    ensures { result ≡ is_atom_byte b }
{
    b > 32
        && b != 127
        && !matches!(
            b,
            b'(' | b')'
                | b'<'
                | b'>'
                | b'['
                | b']'
                | b':'
                | b';'
                | b'@'
                | b'\\'
                | b','
                | b'"'
                | b'.'
        )
}

/// The place of the parenthesis that closes a comment; its opening one stands before these bytes.
fn comment_end(bytes: &[u8]) -> Option<usize>
    ensures { IsEnd IsCommentContent 41 bytes.now result }
{
    let mut depth: usize = 0;
    let mut escaped = false;
    for (i, b) in bytes.iter().enumerate() {
        if escaped {
            escaped = false;
        } else if *b == b'\\' {
            escaped = true;
        } else if *b == b'(' {
            depth += 1;
        } else if *b == b')' {
            if depth == 0 {
                return Some(i);
            }
            depth -= 1;
        }
    }
    None
}

/// The place of the quote that closes a quoted string (RFC 5322, section 3.2.4), if one does; its opening one stands
/// before these bytes. It takes no memory.
pub fn quote_end(bytes: &[u8]) -> Option<usize>
    ensures place { result ≡ unquote false 0 bytes.now }
    ensures end { IsEnd IsQuotedContent 34 bytes.now result }
{
    let mut escaped = false;
    for (i, b) in bytes.iter().enumerate() {
        if escaped {
            escaped = false;
        } else if *b == b'\\' {
            escaped = true;
        } else if *b == b'"' {
            return Some(i);
        }
    }
    None
}

/// The place of the first closing bracket.
fn literal_end(bytes: &[u8]) -> Option<usize>
    ensures { IsEnd IsLiteralContent 93 bytes.now result }
{
    memchr(b']', bytes)
}

/// How many bytes at the front are blanks.
fn blank_length(bytes: &[u8]) -> usize
    ensures within { result ≤ length bytes.now }
    ensures all { list_all is_blank_byte (take result bytes.now) ≡ true }
    ensures ends { begins is_blank_byte (drop result bytes.now) ≡ false }
{
    for (i, b) in bytes.iter().enumerate() {
        if !is_blank_byte(*b) {
            return i;
        }
    }
    bytes.len()
}

/// How many bytes at the front an atom has.
pub(crate) fn atom_length(bytes: &[u8]) -> usize
    ensures within { result ≤ length bytes.now }
    ensures all { list_all is_atom_byte (take result bytes.now) ≡ true }
    ensures ends { begins is_atom_byte (drop result bytes.now) ≡ false }
{
    for (i, b) in bytes.iter().enumerate() {
        if !is_atom_byte(*b) {
            return i;
        }
    }
    bytes.len()
}

/// The token with this end and what follows it, or, without an end, the whole as unclosed.
fn enclosed<'a>(
    kind: Kind,
    whole: &'a [u8],
    inside: &'a [u8],
    end: Option<usize>,
) -> (Token<'a>, &'a [u8])
    requires { IfSome end (λ n. n < length inside.now) }
    ensures { MatchOption end
        ((result.0 ≡ unclosed whole.now) × (result.1.now ≡ []))
        (λ n. (result.0 ≡ lexeme kind (take n inside.now)) × (result.1.now ≡ drop (n + 1) inside.now)) }
{
    match end {
        None => (Token::new(Kind::Unclosed, whole), &[]),
        Some(n) => (Token::new(kind, &inside[..n]), &inside[n + 1..]),
    }
}

/// The first token of bytes that aren't empty, and what follows it.
fn token_from<'a>(first: u8, bytes: &'a [u8], inside: &'a [u8]) -> (Token<'a>, &'a [u8])
    requires { bytes.now ≡ first ∷ inside.now }
    ensures { (bytes.now ≡ text_of result.0 ++ result.1.now) × IsToken result.0 result.1.now }
{
    match first {
        b'(' => enclosed(Kind::Comment, bytes, inside, comment_end(inside)),
        b'"' => enclosed(Kind::Quoted, bytes, inside, quote_end(inside)),
        b'[' => enclosed(Kind::Literal, bytes, inside, literal_end(inside)),
        _ => plain_token(first, bytes, inside),
    }
}

/// The first token and what follows it, if the first byte opens nothing.
fn plain_token<'a>(first: u8, bytes: &'a [u8], after: &'a [u8]) -> (Token<'a>, &'a [u8])
    requires whole { bytes.now ≡ first ∷ after.now }
    requires no_comment { first ≢ 40 }
    requires no_quote { first ≢ 34 }
    requires no_literal { first ≢ 91 }
    ensures { (bytes.now ≡ text_of result.0 ++ result.1.now) × IsToken result.0 result.1.now }
{
    if is_blank_byte(first) {
        let (run, rest) = bytes.split_at(blank_length(bytes));
        (Token::new(Kind::Blanks, run), rest)
    } else if is_atom_byte(first) {
        let (run, rest) = bytes.split_at(atom_length(bytes));
        (Token::new(Kind::Atom, run), rest)
    } else {
        (Token::new(Kind::Mark(first), &bytes[..1]), after)
    }
}

/// The first token and what follows it.
pub(crate) fn first_token<'a>(bytes: &'a [u8]) -> Option<(Token<'a>, &'a [u8])>
    ensures { MatchOption result (bytes.now ≡ [])
        (λ r. (bytes.now ≡ text_of r.0 ++ r.1.now) × IsToken r.0 r.1.now) }
{
    match bytes {
        [] => None,
        [first, after @ ..] => Some(token_from(*first, bytes, after)),
    }
}

/// Puts what a quoted string stands for at the end.
pub(crate) fn push_unescaped(inside: &[u8], out: &mut Text) -> Result<(), Memory>
    ensures { OnOk result (out.new ≡ out.old ++ unescaped false inside.now) }
{
    let mut rest = inside;
    while let Some(at) = memchr(b'\\', rest) {
        let (run, pair) = rest.split_at(at);
        out.push(run)?;
        rest = push_taken(pair, out)?;
    }
    out.push(rest)
}

/// Puts the byte that the backslash at the front takes at the end, if there is one; and what follows it.
fn push_taken<'a>(pair: &'a [u8], out: &mut Text) -> Result<&'a [u8], Memory>
    requires { (after : List ℕ) × (pair.now ≡ 92 ∷ after) }
    ensures text { IfOk result (λ after. out.new ++ unescaped false after.now ≡ out.old ++ unescaped false pair.now) }
    ensures shorter { IfOk result (λ after. length after.now < length pair.now) }
{
    match pair {
        [_, byte, after @ ..] => {
            out.push(&[*byte])?;
            Ok(after)
        }
        _ => Ok(&[]),
    }
}
