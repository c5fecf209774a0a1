// What a line of a draft is.
ghost use Rattle.std.specs.Prelude.{◌≡◌, IfOk};
ghost use Rattle.std.specs.Option.{option_copied};
ghost use Rattle.mail_headers.specs.Field.{trim_start, trim_end};
ghost use Rattle.compose_tilde.specs.Reading.{escape_byte, reading_of, behind_mark, argument, given_for, as_is, cut, list_cut, is_end};
ghost use Rattle.compose_tilde.specs.Written.{written_of};

use crate::escape::Behind;
use line_words::{list_words_of, words_of};
use mail_text::{Items, Memory, Text, is_blank};
use mailx_vars::Vars;
use std::alloc::Global;

/// A line of a draft.
#[derive(Drop)]
pub(crate) enum Written<'a> {
    /// Bytes for the body.
    Plain(&'a [u8]),
    /// The escape byte alone.
    Alone,
    /// An escape: its letter and the rest of the line.
    Escaped(u8, &'a [u8]),
}

/// The argument of an escape, whole and cut into words, if it takes words.
#[derive(Drop)]
pub struct Given {
    /// The argument.
    pub whole: Text,
    /// Its words.
    pub words: Items<Text>,
}

// The byte that begins an escape, if one does.
pub(crate) fn escape_byte(vars: &Vars) -> Option<u8>
    ensures { result ≡ escape_byte vars.now }
{
    match vars.get(b"escape") {
        Some(value) => value.first().copied(),
        None => None,
    }
}

// What stands after the escape byte.
fn behind_mark(mark: u8, rest: &[u8]) -> Written<'_>
    ensures { written_of result ≡ behind_mark mark rest.now }
{
    match rest {
        [] => Written::Alone,
        [letter, after @ ..] => {
            if *letter == mark {
                Written::Plain(rest)
            } else {
                Written::Escaped(*letter, after)
            }
        }
    }
}

// What a line is, with the escape byte, if there is one.
pub(crate) fn reading_of(mark: Option<u8>, line: &[u8]) -> Written<'_>
    ensures { written_of result ≡ reading_of mark line.now }
{
    match (mark, line) {
        (Some(mark), [first, rest @ ..]) => {
            if *first == mark {
                behind_mark(mark, rest)
            } else {
                Written::Plain(line)
            }
        }
        _ => Written::Plain(line),
    }
}

// Whether the line ends the draft.
pub(crate) fn is_end(vars: &Vars, line: &[u8]) -> bool
    ensures { result ≡ is_end vars.now line.now }
{
    line == b".".as_slice() && vars.flag(b"dot")
}

// The bytes without the blanks at their front.
fn without_first_blanks(bytes: &[u8]) -> &[u8]
    ensures { result.now ≡ trim_start bytes.now }
{
    let mut rest = bytes;
    while let Some((first, after)) = rest.split_first() {
        if !is_blank(*first) {
            return rest;
        }
        rest = after;
    }
    rest
}

// The bytes without the blanks at their end.
fn without_last_blanks(bytes: &[u8]) -> &[u8]
    ensures { result.now ≡ trim_end bytes.now }
{
    let mut rest = bytes;
    while let Some((last, before)) = rest.split_last() {
        if !is_blank(*last) {
            return rest;
        }
        rest = before;
    }
    rest
}

// The argument of an escape.
pub(crate) fn argument(rest: &[u8]) -> &[u8]
    ensures { result.now ≡ argument rest.now }
{
    without_last_blanks(without_first_blanks(rest))
}

// The argument as it is.
fn as_is(alloc: Global, bytes: &[u8]) -> Result<Option<Given>, Memory>
    ensures { IfOk result (λ found. found ≡ Some (as_is bytes.now)) }
{
    Ok(Some(Given {
        whole: Text::copy(alloc, bytes)?,
        words: Items::new(alloc),
    }))
}

// The argument cut into words, if each quote is closed.
fn cut(alloc: Global, bytes: &[u8]) -> Result<Option<Given>, Memory>
    ensures { IfOk result (λ found. found ≡ cut bytes.now) }
{
    let whole = Text::copy(alloc, bytes)?;
    let words = words_of(alloc, bytes)?;
    match words {
        Some(words) => Ok(Some(Given { whole, words })),
        None => Ok(None),
    }
}

// The same for a list of messages.
fn list_cut(alloc: Global, bytes: &[u8]) -> Result<Option<Given>, Memory>
    ensures { IfOk result (λ found. found ≡ list_cut bytes.now) }
{
    let whole = Text::copy(alloc, bytes)?;
    let words = list_words_of(alloc, bytes)?;
    match words {
        Some(words) => Ok(Some(Given { whole, words })),
        None => Ok(None),
    }
}

// What an escape is given that takes this, if its argument is of use.
pub(crate) fn given_for(alloc: Global, takes: Behind, bytes: &[u8]) -> Result<Option<Given>, Memory>
    ensures { IfOk result (λ found. found ≡ given_for takes bytes.now) }
{
    match takes {
        Behind::Nothing if bytes.is_empty() => as_is(alloc, bytes),
        Behind::Nothing => Ok(None),
        Behind::Anything => as_is(alloc, bytes),
        Behind::Argument | Behind::Source | Behind::Words if bytes.is_empty() => Ok(None),
        Behind::Source if bytes == b"!".as_slice() => Ok(None),
        Behind::Argument | Behind::Source => as_is(alloc, bytes),
        Behind::Words => cut(alloc, bytes),
        Behind::List => list_cut(alloc, bytes),
    }
}
