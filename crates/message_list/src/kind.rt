ghost use Rattle.std.specs.Prelude.{◌≡◌, IfOk};
ghost use Rattle.std.specs.List.{before_first, after_first};
ghost use Rattle.mail_text.specs.Number.{is_numeral};
ghost use Rattle.message_list.specs.ListWords.{number_in, end_of, range_of, mark_of, plain_kind, letter_of, word_kind, search_kind, kind_of, is_dash};

use crate::list::{End, Kind};
use mail_search::{SearchError, read_criterion};
use mail_text::{Memory, read_number};
use std::alloc::Global;

/// The kind of a word, or none of a bad one.
pub(crate) fn kind_of(alloc: Global, word: &[u8]) -> Result<Option<Kind>, Memory>
    ensures { IfOk result (λ kind. kind ≡ kind_of word.now) }
{
    match word {
        [b'(', ..] => search_kind(alloc, word),
        _ => Ok(word_kind(word)),
    }
}

// The kind of a word that is to be a search criterion.
fn search_kind(alloc: Global, word: &[u8]) -> Result<Option<Kind>, Memory>
    ensures { IfOk result (λ kind. kind ≡ search_kind word.now) }
{
    match read_criterion(alloc, word) {
        Ok(criterion) => Ok(Some(Kind::Search(criterion))),
        Err(SearchError::Syntax) => Ok(None),
        Err(SearchError::Memory) => Err(Memory),
    }
}

// The kind of a word that doesn't begin with `(`.
fn word_kind(word: &[u8]) -> Option<Kind>
    ensures { result ≡ word_kind word.now }
{
    match word {
        [] => None,
        [b'/', string @ ..] => {
            if string.is_empty() {
                None
            } else {
                Some(Kind::Subject)
            }
        }
        [b':', letter @ ..] => letter_of(letter),
        _ => Some(plain_kind(word)),
    }
}

// What a word that begins with no `(`, `/` or `:` is.
fn plain_kind(word: &[u8]) -> Kind
    ensures { result ≡ plain_kind word.now }
{
    if is_numeral(word) {
        return Kind::Number(number_in(word));
    }
    match mark_of(word) {
        Some(kind) => kind,
        None => range_of(word).unwrap_or(Kind::Address),
    }
}

// The kind of the letter after a `:`, if it is one of the eight and alone.
fn letter_of(text: &[u8]) -> Option<Kind>
    ensures { result ≡ letter_of text.now }
{
    match text {
        [letter] => {
            if matches!(
                *letter,
                b'a' | b'd' | b'f' | b'n' | b'o' | b'r' | b't' | b'u'
            ) {
                Some(Kind::Letter(*letter))
            } else {
                None
            }
        }
        _ => None,
    }
}

// The kind of a word that is one mark.
fn mark_of(word: &[u8]) -> Option<Kind>
    ensures { result ≡ mark_of word.now }
{
    match word {
        [b'+'] => Some(Kind::Next),
        [b'-'] => Some(Kind::Previous),
        [b'.'] => Some(Kind::Current),
        [b'^'] => Some(Kind::First),
        [b'$'] => Some(Kind::Last),
        [b'*'] => Some(Kind::All),
        _ => None,
    }
}

// A range, if the word is one.
fn range_of(word: &[u8]) -> Option<Kind>
    ensures { result ≡ range_of word.now }
{
    let (front, back) = around_dash(word);
    match (end_of(front), end_of(back)) {
        (Some(from), Some(to)) => Some(Kind::Range(from, to)),
        _ => None,
    }
}

// An end of a range, if the text is one.
fn end_of(text: &[u8]) -> Option<End>
    ensures { result ≡ end_of text.now }
{
    if is_numeral(text) {
        return Some(End::Number(number_in(text)));
    }
    match text {
        [b'.'] => Some(End::Current),
        [b'^'] => Some(End::First),
        [b'$'] => Some(End::Last),
        _ => None,
    }
}

// What stands before the first `-` and after it: all and nothing if there is none.
fn around_dash(word: &[u8]) -> (&[u8], &[u8])
    ensures before { result.0.now ≡ before_first is_dash word.now }
    ensures after { result.1.now ≡ after_first is_dash word.now }
{
    for (i, b) in word.iter().enumerate() {
        if *b == b'-' {
            let (front, _) = word.split_at(i);
            let (_, back) = word.split_at(i + 1);
            return (front, back);
        }
    }
    word.split_at(word.len())
}

// Whether the text is one digit or more and nothing else.
fn is_numeral(text: &[u8]) -> bool
    ensures { result ≡ is_numeral text.now }
{
    !text.is_empty() && text.iter().all(|b| b.is_ascii_digit())
}

// The number in decimal digits; the last of 64 bits for one that is greater.
fn number_in(digits: &[u8]) -> u64
    ensures { result ≡ number_in digits.now }
{
    read_number(digits).unwrap_or(u64::MAX)
}
