// The words of the command line.
ghost use Rattle.std.specs.Prelude.{◌≡◌, ◌++◌, codes, IfOk};
ghost use Rattle.std.specs.List.{list_all};
ghost use Rattle.spool_rules.specs.Words.{operation_of, is_digit, is_token, is_plain, begins_plainly, is_mailbox, requested, understood, request_of};

use mail_text::{Memory, Text};
use mailx_vars::is_user_name;
use std::alloc::Global;

/// What is done to a mailbox.
#[derive(Clone, Copy, Debug, PartialEq, Eq)]
pub enum Operation {
    /// Its lock is put.
    Lock,
    /// Its lock is taken away.
    Unlock,
    /// What is to take its place is written.
    Stage,
    /// What was staged takes its place.
    Publish,
    /// It is taken away.
    Erase,
    /// What was staged is taken away.
    Discard,
}

/// What is asked for: an operation, the token of the run that asks, and the names that it may be about.
#[derive(Drop)]
pub struct Request {
    pub operation: Operation,
    pub token: Text,
    pub mailbox: Text,
    pub lock: Text,
    /// The lock's other name, which has the token.
    pub beside: Text,
    pub staged: Text,
}

fn operation_of(word: &[u8]) -> Option<Operation>
    ensures { result ≡ operation_of word.now }
{
    if word == b"lock".as_slice() {
        Some(Operation::Lock)
    } else if word == b"unlock".as_slice() {
        Some(Operation::Unlock)
    } else if word == b"stage".as_slice() {
        Some(Operation::Stage)
    } else if word == b"publish".as_slice() {
        Some(Operation::Publish)
    } else if word == b"erase".as_slice() {
        Some(Operation::Erase)
    } else if word == b"discard".as_slice() {
        Some(Operation::Discard)
    } else {
        None
    }
}

fn is_digit(b: u8) -> bool
    ensures { result ≡ is_digit b }
{
    (b >= b'0' && b <= b'9') || (b >= b'a' && b <= b'f')
}

fn has_digits(word: &[u8]) -> bool
    ensures { result ≡ list_all is_digit word.now }
{
    word.iter().all(|b| is_digit(*b))
}

fn is_token(word: &[u8]) -> bool
    ensures { result ≡ is_token word.now }
{
    word.len() == 16 && has_digits(word)
}

fn begins_plainly(word: &[u8]) -> bool
    ensures { result ≡ begins_plainly word.now }
{
    match word {
        [first, ..] => *first != b'.',
        [] => false,
    }
}

fn is_plain(word: &[u8]) -> bool
    ensures { result ≡ list_all is_plain word.now }
{
    word.iter().all(|b| *b != b'/' && *b != b':')
}

fn is_mailbox(word: &[u8]) -> bool
    ensures { result ≡ is_mailbox word.now }
{
    begins_plainly(word) && is_user_name(word) && is_plain(word)
}

// A user's name with an end, and with the token behind that.
fn name_with(alloc: Global, user: &[u8], end: &[u8], token: &[u8]) -> Result<Text, Memory>
    ensures { IfOk result (λ name. name ≡ user.now ++ (end.now ++ token.now)) }
{
    let mut name = Text::copy(alloc, user)?;
    name.push(end)?;
    name.push(token)?;
    Ok(name)
}

fn make_request(
    alloc: Global,
    operation: Operation,
    user: &[u8],
    token: &[u8],
) -> Result<Request, Memory>
    ensures { IfOk result (λ asked. asked ≡ requested operation user.now token.now) }
{
    Ok(Request {
        operation,
        token: Text::copy(alloc, token)?,
        mailbox: Text::copy(alloc, user)?,
        lock: name_with(alloc, user, b".lock", b"")?,
        beside: name_with(alloc, user, b".lock.mx", token)?,
        staged: name_with(alloc, user, b".mx", token)?,
    })
}

// What three words ask for.
fn understood(
    alloc: Global,
    word: &[u8],
    user: &[u8],
    token: &[u8],
) -> Result<Option<Request>, Memory>
    ensures asked { IfOk result (λ asked. asked ≡ understood word.now user.now token.now) }
    ensures refused { understood word.now user.now token.now ≡ None → result ≡ Ok None }
{
    if !is_mailbox(user) {
        return Ok(None);
    }
    if !is_token(token) {
        return Ok(None);
    }
    match operation_of(word) {
        Some(operation) => Ok(Some(make_request(alloc, operation, user, token)?)),
        None => Ok(None),
    }
}

/// What the words ask for; None if they aren't understood, and that takes no memory.
pub(crate) fn request_of(alloc: Global, words: &[Text]) -> Result<Option<Request>, Memory>
    ensures asked { IfOk result (λ asked. asked ≡ request_of words.now) }
    ensures refused { request_of words.now ≡ None → result ≡ Ok None }
{
    match words {
        [word, user, token] => {
            let first = word.bytes();
            let second = user.bytes();
            let third = token.bytes();
            understood(alloc, first, second, third)
        }
        _ => Ok(None),
    }
}
