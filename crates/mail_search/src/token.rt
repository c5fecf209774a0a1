ghost use Rattle.std.specs.Prelude.{◌≡◌, ◌≢◌, ◌<◌, ◌≤◌, [], ◌∷◌, length, IfOk, MatchOption, IfSome};
ghost use Rattle.std.specs.List.{prefix_len};
ghost use Rattle.mail_search.specs.Tokens.{outside, inside, tokens_from, token_of, is_run_byte, quoted, bad};

use mail_text::{Memory, Text, is_blank};
use std::alloc::Global;

/// A token of a criterion.
#[derive(Drop)]
pub(crate) enum Token<'a> {
    Open,
    Close,
    /// A blank.
    Gap,
    Run(&'a [u8]),
    /// What a quoted string stands for.
    Quoted(Text),
    /// A byte that begins nothing, or a quote that nothing closes.
    Bad,
}

impl<'a> Token<'a> {
    ghost use Rattle.mail_search.specs.Tokens.{is_gap, is_opener, is_closer};

    /// Whether it is a blank.
    pub(crate) fn is_gap(&self) -> bool
        ensures { result ≡ is_gap (token_of self.now) }
    {
        matches!(self, Token::Gap)
    }

    /// Whether it is `(`.
    pub(crate) fn is_opener(&self) -> bool
        ensures { result ≡ is_opener (token_of self.now) }
    {
        matches!(self, Token::Open)
    }

    /// Whether it is `)`.
    pub(crate) fn is_closer(&self) -> bool
        ensures { result ≡ is_closer (token_of self.now) }
    {
        matches!(self, Token::Close)
    }
}

fn is_run_byte(byte: u8) -> bool
    ensures { result ≡ is_run_byte byte }
{
    byte > b' ' && !matches!(byte, b'"' | b'(' | b')' | 127)
}

fn run_len(text: &[u8]) -> usize
    ensures value { result ≡ prefix_len is_run_byte text.now }
    ensures within { result ≤ length text.now }
{
    text.iter()
        .position(|byte| !is_run_byte(*byte))
        .unwrap_or(text.len())
}

// What a quoted string stands for, and what follows it; the quote that opens it stands before these bytes. None if
// nothing closes it.
fn unquoted(alloc: Global, bytes: &[u8]) -> Result<Option<(Text, &[u8])>, Memory>
    ensures tokens { IfOk result (λ found. MatchOption found (tokens_from inside bytes.now ≡ bad ∷ [])
        (λ p. tokens_from inside bytes.now ≡ quoted p.0 ∷ tokens_from outside p.1.now)) }
    ensures shorter { IfOk result (λ found. IfSome found (λ p. length p.1.now < length bytes.now)) }
{
    let mut string = Text::new(alloc);
    let mut escaped = false;
    for (i, byte) in bytes.iter().enumerate() {
        if escaped {
            string.push(&[*byte])?;
            escaped = false;
        } else if *byte == b'\\' {
            escaped = true;
        } else if *byte == b'"' {
            let (_, after) = bytes.split_at(i + 1);
            return Ok(Some((string, after)));
        } else {
            string.push(&[*byte])?;
        }
    }
    Ok(None)
}

// The quoted string or the bad quote at the front, and what follows it; the quote stands before these bytes.
#[tactic(auto, unfolding(crate::specs::Tokens::tokens_from))]
fn quoted_token(alloc: Global, bytes: &[u8]) -> Result<(Token<'_>, &[u8]), Memory>
    ensures tokens { IfOk result (λ p. tokens_from inside bytes.now ≡ token_of p.0 ∷ tokens_from outside p.1.now) }
    ensures shorter { IfOk result (λ p. length p.1.now ≤ length bytes.now) }
{
    match unquoted(alloc, bytes)? {
        Some((string, after)) => Ok((Token::Quoted(string), after)),
        None => Ok((Token::Bad, &[])),
    }
}

// The blank, the run or the bad byte at the front, and what follows it. The first byte is no parenthesis and no
// quote.
fn plain_token<'a>(first: u8, bytes: &'a [u8], after: &'a [u8]) -> (Token<'a>, &'a [u8])
    requires whole { bytes.now ≡ first ∷ after.now }
    requires no_open { first ≢ 40 }
    requires no_close { first ≢ 41 }
    requires no_quote { first ≢ 34 }
    ensures tokens { tokens_from outside bytes.now ≡ token_of result.0 ∷ tokens_from outside result.1.now }
    ensures shorter { length result.1.now < length bytes.now }
{
    if is_run_byte(first) {
        let (run, rest) = bytes.split_at(1 + run_len(after));
        (Token::Run(run), rest)
    } else if is_blank(first) {
        (Token::Gap, after)
    } else {
        (Token::Bad, after)
    }
}

// The token at the front, and what follows it.
fn token_from<'a>(
    alloc: Global,
    first: u8,
    bytes: &'a [u8],
    after: &'a [u8],
) -> Result<(Token<'a>, &'a [u8]), Memory>
    requires { bytes.now ≡ first ∷ after.now }
    ensures tokens { IfOk result (λ p. tokens_from outside bytes.now ≡ token_of p.0 ∷ tokens_from outside p.1.now) }
    ensures shorter { IfOk result (λ p. length p.1.now < length bytes.now) }
{
    match first {
        b'(' => Ok((Token::Open, after)),
        b')' => Ok((Token::Close, after)),
        b'"' => quoted_token(alloc, after),
        _ => Ok(plain_token(first, bytes, after)),
    }
}

/// The first token, and what follows it. Fails only if memory runs out.
pub(crate) fn first_token(alloc: Global, bytes: &[u8]) -> Result<Option<(Token<'_>, &[u8])>, Memory>
    ensures tokens { IfOk result (λ found. MatchOption found (bytes.now ≡ [])
        (λ p. tokens_from outside bytes.now ≡ token_of p.0 ∷ tokens_from outside p.1.now)) }
    ensures shorter { IfOk result (λ found. IfSome found (λ p. length p.1.now < length bytes.now)) }
{
    match bytes {
        [] => Ok(None),
        [first, after @ ..] => Ok(Some(token_from(alloc, *first, bytes, after)?)),
    }
}
