// Commands that put messages into files.
ghost use Rattle.std.specs.Prelude.{◌≡◌, ◌<◌, ◌++◌, map, All, IfOk, OnOk, length};
ghost use Rattle.std.specs.List.{flat_map};
ghost use Rattle.message_state.specs.declared.mark.Act.TheVariants as act;
ghost use Rattle.command_desk.specs.Answers.{Means};
ghost use Rattle.command_desk.specs.Desks.{IsDesk, IsMessageOf, message_text};
ghost use Rattle.folder_commands.specs.Saving.{receipt, body_line, adding, writing, into_named, into_mbox, into_file, by_author, copy, copy_by_author, save, save_by_author, write_to, write, IsFilingWithin};

use crate::Filing;
use command_desk::{
    Desk, Refusal, chosen, expanded, fault, last_word, list_words, marked, message, named_after,
};
use itoa::Buffer;
use mail_headers::Header;
use mail_text::{Items, Memory, Text};
use message_list::Purpose;
use message_state::Act;
use quit_rules::{BatchItem, Payload};
use std::alloc::Global;

/// What is printed once `count` messages were put into the file of this name.
pub fn receipt(alloc: Global, name: &[u8], done: &[u8], count: usize) -> Result<Text, Memory>
    ensures { IfOk result (λ line. line ≡ receipt name.now done.now count) }
{
    let mut buffer = Buffer::new();
    let mut line = Text::copy(alloc, b"\"")?;
    line.push(name)?;
    line.push(b"\" [")?;
    line.push(done)?;
    line.push(b"] ")?;
    line.push(buffer.format(count).as_bytes())?;
    line.push(b"\n")?;
    Ok(line)
}

// The texts of messages, as they stand in the folder.
fn texts_of(alloc: Global, desk: &Desk, numbers: &[u32]) -> Result<Items<Text>, Memory>
    requires desk { IsDesk desk.now }
    requires messages { All (IsMessageOf desk.now.shown) numbers.now }
    ensures { IfOk result (λ texts. texts ≡ map (message_text desk.now) numbers.now) }
{
    let mut texts = Items::new(alloc);
    for n in numbers {
        texts.push(Text::copy(alloc, message(desk, *n).text())?)?;
    }
    Ok(texts)
}

// Puts the body of a message and a line feed.
fn put_body(alloc: Global, out: &mut Text, desk: &Desk, n: u32) -> Result<(), Memory>
    requires desk { IsDesk desk.now }
    requires message { IsMessageOf desk.now.shown n }
    ensures { OnOk result (out.new ≡ out.old ++ body_line desk.now n) }
{
    let text = message(desk, n);
    let header = Header::read(alloc, text.text())?;
    out.push(header.body())?;
    out.push(b"\n")
}

// The bodies of messages, each with a line feed.
fn bodies_of(alloc: Global, desk: &Desk, numbers: &[u32]) -> Result<Text, Memory>
    requires desk { IsDesk desk.now }
    requires messages { All (IsMessageOf desk.now.shown) numbers.now }
    ensures { IfOk result (λ t. t ≡ flat_map (body_line desk.now) numbers.now) }
{
    let mut out = Text::new(alloc);
    for n in numbers {
        put_body(alloc, &mut out, desk, *n)?;
    }
    Ok(out)
}

// Adds the texts of messages to a file, and then does an act on each.
fn adding(
    alloc: Global,
    act: Act,
    desk: &Desk,
    numbers: &[u32],
    name: Text,
) -> Result<Filing, Memory>
    requires desk { IsDesk desk.now }
    requires some { 0 < length numbers.now }
    requires messages { All (IsMessageOf desk.now.shown) numbers.now }
    ensures filing { IfOk result (λ filing. filing ≡ adding act desk.now numbers.now name) }
    ensures within { IsFilingWithin desk.now result }
{
    let reply = receipt(alloc, name.bytes(), b"Appended", numbers.len())?;
    let texts = texts_of(alloc, desk, numbers)?;
    let effects = marked(alloc, desk, act, numbers)?;
    Ok(Filing {
        put: BatchItem {
            name,
            what: Payload::Texts(texts),
            reply,
        },
        effects,
    })
}

// Puts the bodies of messages at the end of a file, and then they are saved.
fn writing(alloc: Global, desk: &Desk, numbers: &[u32], name: Text) -> Result<Filing, Memory>
    requires desk { IsDesk desk.now }
    requires some { 0 < length numbers.now }
    requires messages { All (IsMessageOf desk.now.shown) numbers.now }
    ensures filing { IfOk result (λ filing. filing ≡ writing desk.now numbers.now name) }
    ensures within { IsFilingWithin desk.now result }
{
    let reply = receipt(alloc, name.bytes(), b"Written", numbers.len())?;
    let bytes = bodies_of(alloc, desk, numbers)?;
    let effects = marked(alloc, desk, Act::Save, numbers)?;
    Ok(Filing {
        put: BatchItem {
            name,
            what: Payload::Bytes(bytes),
            reply,
        },
        effects,
    })
}

// Adds the selected messages to the file that a word names.
fn into_named(
    alloc: Global,
    act: Act,
    desk: &Desk,
    list: &[Text],
    word: &[u8],
) -> Result<Filing, Refusal>
    requires { IsDesk desk.now }
    ensures means { Means result (into_named act desk.now list.now word.now) }
    ensures within { IsFilingWithin desk.now result }
{
    let numbers = chosen(alloc, list, desk, Purpose::Live)?;
    let name = expanded(alloc, desk, word)?;
    Ok(adding(alloc, act, desk, numbers.items(), name)?)
}

// Adds the current message to mbox.
fn into_mbox(alloc: Global, act: Act, desk: &Desk) -> Result<Filing, Refusal>
    requires { IsDesk desk.now }
    ensures means { Means result (into_mbox act desk.now) }
    ensures within { IsFilingWithin desk.now result }
{
    let numbers = chosen(alloc, &[], desk, Purpose::Live)?;
    let name = Text::copy(alloc, desk.places.mbox.bytes())?;
    Ok(adding(alloc, act, desk, numbers.items(), name)?)
}

// A list and a file after it; a single word is the file, and without a word it is mbox.
fn into_file(alloc: Global, act: Act, desk: &Desk, words: &[Text]) -> Result<Filing, Refusal>
    requires { IsDesk desk.now }
    ensures means { Means result (into_file act desk.now words.now) }
    ensures within { IsFilingWithin desk.now result }
{
    if words.is_empty() {
        into_mbox(alloc, act, desk)
    } else {
        into_named(alloc, act, desk, list_words(words), last_word(words))
    }
}

// Adds the selected messages to the file that is named after the author of the first of them.
fn by_author(alloc: Global, act: Act, desk: &Desk, words: &[Text]) -> Result<Filing, Refusal>
    requires { IsDesk desk.now }
    ensures means { Means result (by_author act desk.now words.now) }
    ensures within { IsFilingWithin desk.now result }
{
    let numbers = chosen(alloc, words, desk, Purpose::Live)?;
    let name = named_after(alloc, desk, numbers.items()[0])?;
    Ok(adding(alloc, act, desk, numbers.items(), name)?)
}

/// `copy`: the selected messages are added to a file, the last word's, or to mbox if there is no word; then they are
/// looked at. Refused are, in this order: what `chosen` refuses, `#` if there is no previous file, and `+` if no
/// folder is set.
pub fn copy(alloc: Global, desk: &Desk, words: &[Text]) -> Result<Filing, Refusal>
    requires { IsDesk desk.now }
    ensures means { Means result (copy desk.now words.now) }
    ensures within { IsFilingWithin desk.now result }
{
    into_file(alloc, Act::Look, desk, words)
}

/// `Copy`: adds the messages of a list to the file that is named after the author of the first of them. Refused are,
/// after what `chosen` refuses, the lack of an author, and a name that is empty or holds `/`.
pub fn copy_by_author(alloc: Global, desk: &Desk, words: &[Text]) -> Result<Filing, Refusal>
    requires { IsDesk desk.now }
    ensures means { Means result (copy_by_author desk.now words.now) }
    ensures within { IsFilingWithin desk.now result }
{
    by_author(alloc, Act::Look, desk, words)
}

/// `save`: as `copy`, but the messages are marked as saved.
pub fn save(alloc: Global, desk: &Desk, words: &[Text]) -> Result<Filing, Refusal>
    requires { IsDesk desk.now }
    ensures means { Means result (save desk.now words.now) }
    ensures within { IsFilingWithin desk.now result }
{
    into_file(alloc, Act::Save, desk, words)
}

/// `Save`: as `Copy`, but the messages are marked as saved.
pub fn save_by_author(alloc: Global, desk: &Desk, words: &[Text]) -> Result<Filing, Refusal>
    requires { IsDesk desk.now }
    ensures means { Means result (save_by_author desk.now words.now) }
    ensures within { IsFilingWithin desk.now result }
{
    by_author(alloc, Act::Save, desk, words)
}

// Puts the bodies of the selected messages at the end of the file that a word names.
fn write_to(alloc: Global, desk: &Desk, list: &[Text], word: &[u8]) -> Result<Filing, Refusal>
    requires { IsDesk desk.now }
    ensures means { Means result (write_to desk.now list.now word.now) }
    ensures within { IsFilingWithin desk.now result }
{
    let numbers = chosen(alloc, list, desk, Purpose::Live)?;
    let name = expanded(alloc, desk, word)?;
    Ok(writing(alloc, desk, numbers.items(), name)?)
}

/// `write`: the bodies of the selected messages, each with a line feed, are put at the end of the file of the last
/// word; then they are marked as saved. Refused is first a line without a word, and then as in `copy`.
pub fn write(alloc: Global, desk: &Desk, words: &[Text]) -> Result<Filing, Refusal>
    requires { IsDesk desk.now }
    ensures means { Means result (write desk.now words.now) }
    ensures within { IsFilingWithin desk.now result }
{
    if words.is_empty() {
        Err(fault(alloc, b"write", b": bad arguments"))
    } else {
        write_to(alloc, desk, list_words(words), last_word(words))
    }
}
