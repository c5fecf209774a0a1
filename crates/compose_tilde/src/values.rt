// The values of a draft that lines set.
ghost use Rattle.std.specs.Prelude.{◌≡◌, ◌+◌, ◌≤◌, ◌++◌, ◌==◌, ◌∷◌, map, IfOk, OnOk, OnErr, vec_len, vec_capacity};
ghost use Rattle.std.specs.Bool.{if◌then◌else◌};
ghost use Rattle.mail_text.specs.Lines.{with_feed, fed};
ghost use Rattle.compose_tilde.specs.Values.{flat_byte, flat, with_names, with_more, with_subject, appended};

use crate::machine::Names;
use draft_text::Draft;
use mail_text::{Items, Memory, Text};
use std::alloc::Global;
use std::mem;

// A byte of a value: a space for a line feed.
fn flat_byte(byte: u8) -> u8
    ensures { result ≡ flat_byte byte }
{
    if byte == b'\n' { b' ' } else { byte }
}

// The bytes with a space for each line feed.
fn flat(alloc: Global, bytes: &[u8]) -> Result<Text, Memory>
    ensures { IfOk result (λ t. t ≡ flat bytes.now) }
{
    let mut value = Vec::with_capacity(alloc, bytes.len())?;
    for byte in bytes {
        value.push(flat_byte(*byte))?;
    }
    Ok(Text::of(value))
}

// Each of these words with a space for each line feed.
fn flat_all(alloc: Global, words: &[Text]) -> Result<Vec<Text>, Memory>
    ensures { IfOk result (λ all. all.items ≡ map flat words.now) }
{
    let mut all = Vec::with_capacity(alloc, words.len())?;
    for word in words {
        all.push(flat(alloc, word.bytes())?)?;
    }
    Ok(all)
}

// Puts texts at the end, if there is room for them.
fn put_all(list: &mut Vec<Text>, more: Vec<Text>)
    requires { vec_len list.old + vec_len more ≤ vec_capacity list.old }
    ensures { list.new.items ≡ list.old.items ++ more.items }
{
    for text in more {
        list.push_reserved(text);
    }
}

// Puts texts at the end, all or none.
fn push_all(list: &mut Vec<Text>, more: Vec<Text>) -> Result<(), Memory>
    ensures ok { OnOk result (list.new.items ≡ list.old.items ++ more.items) }
    ensures err { OnErr result (list.new.items ≡ list.old.items) }
{
    match list.try_reserve(more.len()) {
        Ok(()) => {
            put_all(list, more);
            Ok(())
        }
        Err(_) => Err(Memory),
    }
}

// Puts words, each with a space for each line feed, at the end of names of a draft, all or none.
fn push_names(alloc: Global, names: &mut Items<Text>, words: &[Text]) -> Result<(), Memory>
    ensures ok { OnOk result (names.new ≡ names.old ++ map flat words.now) }
    ensures err { OnErr result (names.new ≡ names.old) }
{
    let more = flat_all(alloc, words)?;
    let mut list = mem::replace(names, Items::new(alloc)).into_vec();
    let pushed = push_all(&mut list, more);
    *names = Items::of(list);
    pushed
}

// Puts names at the end of a list of the draft.
pub(crate) fn add_names(
    alloc: Global,
    draft: &mut Draft,
    names: Names,
    words: &[Text],
) -> Result<(), Memory>
    ensures ok { OnOk result (draft.new ≡ with_more draft.old names words.now) }
    ensures err { OnErr result (draft.new ≡ draft.old) }
{
    match names {
        Names::To => push_names(alloc, &mut draft.to, words),
        Names::Cc => push_names(alloc, &mut draft.cc, words),
        Names::Bcc => push_names(alloc, &mut draft.bcc, words),
    }
}

// Puts names in the place of a list of the draft.
pub(crate) fn set_names(
    alloc: Global,
    draft: &mut Draft,
    names: Names,
    words: &[Text],
) -> Result<(), Memory>
    ensures ok { OnOk result (draft.new ≡ with_names draft.old names words.now) }
    ensures err { OnErr result (draft.new ≡ draft.old) }
{
    let list = Items::of(flat_all(alloc, words)?);
    match names {
        Names::To => draft.to = list,
        Names::Cc => draft.cc = list,
        Names::Bcc => draft.bcc = list,
    }
    Ok(())
}

// Sets the subject of the draft.
pub(crate) fn set_subject(alloc: Global, draft: &mut Draft, bytes: &[u8]) -> Result<(), Memory>
    ensures ok { OnOk result (draft.new ≡ with_subject draft.old bytes.now) }
    ensures err { OnErr result (draft.new ≡ draft.old) }
{
    draft.subject = flat(alloc, bytes)?;
    Ok(())
}

// Whether the last line of a body is ended. Without bytes there is none.
fn is_ended(body: &[u8]) -> bool
    ensures { fed body.now ≡ (if result then body.now else with_feed body.now) }
{
    match body.last() {
        Some(last) => *last == b'\n',
        None => true,
    }
}

// Puts bytes at the end of a body, whose last line is ended first.
fn push_apart(alloc: Global, body: &mut Text, bytes: &[u8]) -> Result<(), Memory>
    ensures ok { OnOk result (body.new ≡ fed body.old ++ bytes.now) }
    ensures err { OnErr result (body.new ≡ body.old) }
{
    if is_ended(body.bytes()) {
        return body.push(bytes);
    }
    let mut more = Text::copy(alloc, b"\n")?;
    more.push(bytes)?;
    body.push(more.bytes())
}

// Puts bytes at the end of the body, on a line of their own.
pub(crate) fn append(alloc: Global, draft: &mut Draft, bytes: &[u8]) -> Result<(), Memory>
    ensures ok { OnOk result (draft.new ≡ appended draft.old bytes.now) }
    ensures err { OnErr result (draft.new ≡ draft.old) }
{
    if bytes.is_empty() {
        return Ok(());
    }
    push_apart(alloc, &mut draft.body, bytes)
}

// Puts a line with its line feed at the end of the body.
pub(crate) fn append_line(alloc: Global, draft: &mut Draft, line: &[u8]) -> Result<(), Memory>
    ensures ok { OnOk result (draft.new ≡ appended draft.old (with_feed line.now)) }
    ensures err { OnErr result (draft.new ≡ draft.old) }
{
    let mut bytes = Text::copy(alloc, line)?;
    bytes.push(b"\n")?;
    append(alloc, draft, bytes.bytes())
}
