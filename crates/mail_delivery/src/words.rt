// The words of the command line.
ghost use Rattle.std.specs.Prelude.{◌≡◌, ◌++◌, IfOk, OnOk};
ghost use Rattle.std.specs.List.{find, list_all, list_any};
ghost use Rattle.std.specs.Option.{option_copied};
ghost use Rattle.std.specs.Str.{bytes_eq};
ghost use Rattle.commit_machine.specs.Records.{has};
ghost use Rattle.mailx_vars.specs.Environment.{variable};
ghost use Rattle.mail_delivery.specs.Words.{actor, mailbox, is_user_byte, begins_plainly, is_recipient, with_name, recipients_of, request_of, reading};

use folder_commit::is_file_name;
use mail_text::{Items, Memory, Text};
use mailx_vars::is_user_name;
use std::alloc::Global;

/// The actor of every delivery.
pub(crate) const ACTOR: &[u8] = b"/var/mail/.mail_deliver";

/// The folder of mailboxes, with a slash.
const FOLDER: &[u8] = b"/var/mail/";

/// The most users that one message is delivered to.
const USER_LIMIT: usize = 256;

/// The most bytes of a user's name.
const NAME_LIMIT: usize = 255;

/// Who sends a message, and to whom.
#[derive(Drop)]
pub struct Request {
    pub sender: Text,
    /// Each once, in order of first naming.
    pub users: Items<Text>,
}

/// Where the mail of a user stands.
pub(crate) fn mailbox(alloc: Global, user: &[u8]) -> Result<Text, Memory>
    ensures { IfOk result (λ name. name ≡ mailbox user.now) }
{
    let mut name = Text::copy(alloc, FOLDER)?;
    name.push(user)?;
    Ok(name)
}

// The first pair of a name.
fn first_pair<'a>(pairs: &'a [(Text, Text)], name: &[u8]) -> Option<&'a (Text, Text)>
    ensures { option_copied result ≡ find (λ pair. bytes_eq name.now pair.0) pairs.now }
{
    pairs.iter().find(|pair| name == pair.0.bytes())
}

/// The value of a variable; one that is unset counts as empty.
pub(crate) fn variable<'a>(pairs: &'a [(Text, Text)], name: &[u8]) -> &'a [u8]
    ensures { result.now ≡ variable pairs.now name.now }
{
    match first_pair(pairs, name) {
        Some((_, value)) => value.bytes(),
        None => &[],
    }
}

fn begins_plainly(name: &[u8]) -> bool
    ensures { result ≡ begins_plainly name.now }
{
    match name {
        [first, ..] => *first != b'-' && *first != b'.',
        [] => false,
    }
}

fn has_user_bytes(name: &[u8]) -> bool
    ensures { result ≡ list_all is_user_byte name.now }
{
    name.iter().all(|b| *b >= 33 && *b != 127 && *b != b'/')
}

// Whether mail can be delivered to a user of this name.
fn is_recipient(alloc: Global, name: &[u8]) -> Result<bool, Memory>
    ensures { IfOk result (λ is. is ≡ is_recipient name.now) }
{
    if !begins_plainly(name) || name.len() > NAME_LIMIT || !has_user_bytes(name) {
        return Ok(false);
    }
    let name = mailbox(alloc, name)?;
    Ok(is_file_name(ACTOR, name.bytes()))
}

// Whether one of these is this name.
fn some_is(names: &[Text], name: &[u8]) -> bool
    ensures { result ≡ list_any (λ other. bytes_eq name.now other) names.now }
{
    names.iter().any(|other| name == other.bytes())
}

// Whether a name is among these.
fn has(names: &[Text], name: &[u8]) -> bool
    ensures { result ≡ has names.now name.now }
{
    some_is(names, name)
}

// Puts a name behind others, unless it is among them.
fn put_name(alloc: Global, names: &mut Items<Text>, name: &[u8]) -> Result<(), Memory>
    ensures { OnOk result (names.new ≡ with_name names.old name.now) }
{
    if has(names.items(), name) {
        return Ok(());
    }
    names.push(Text::copy(alloc, name)?)
}

// The users, each once; None if one is no recipient, or there are none or too many.
fn recipients(alloc: Global, users: &[Text]) -> Result<Option<Items<Text>>, Memory>
    ensures { IfOk result (λ found. found ≡ recipients_of users.now) }
{
    let mut names = Items::new(alloc);
    if users.is_empty() {
        return Ok(None);
    }
    for user in users {
        if !is_recipient(alloc, user.bytes())? {
            return Ok(None);
        }
        put_name(alloc, &mut names, user.bytes())?;
        if names.items().len() > USER_LIMIT {
            return Ok(None);
        }
    }
    Ok(Some(names))
}

// A message of this sender to these users.
fn request_of(alloc: Global, sender: &[u8], users: &[Text]) -> Result<Option<Request>, Memory>
    ensures { IfOk result (λ found. found ≡ request_of sender.now users.now) }
{
    if !is_user_name(sender) {
        return Ok(None);
    }
    match recipients(alloc, users)? {
        Some(users) => Ok(Some(Request {
            sender: Text::copy(alloc, sender)?,
            users,
        })),
        None => Ok(None),
    }
}

/// What the words ask for; None if they are refused.
pub(crate) fn reading(
    alloc: Global,
    words: &[Text],
    pairs: &[(Text, Text)],
) -> Result<Option<Request>, Memory>
    ensures { IfOk result (λ found. found ≡ reading words.now pairs.now) }
{
    match words {
        [word, sender, users @ ..] if word.bytes() == b"-r".as_slice() => {
            request_of(alloc, sender.bytes(), users)
        }
        _ => request_of(alloc, variable(pairs, b"LOGNAME"), words),
    }
}
