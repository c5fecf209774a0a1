ghost use Rattle.std.specs.Prelude.{◌≡◌, ◌++◌, ◌<◌, Ok, None, IsTrue, IsSome, IfSome, IfOk, IfErr, OnOk, option_copied};
ghost use Rattle.mbox_scan.specs.Mailbox.{join, written, texts_of, list_of, message_limit};
ghost use Rattle.folder_change.specs.Changes.{is_rewrite};
ghost use Rattle.folder_change.specs.Outcomes.{bytes_of, base_list, missing_feeds, file_of, rewrite_of, outcome_of, DiffersAt, Explains};

use crate::{Change, ChangeError};
use mail_text::{Memory, Text};
use mbox_scan::{Folder, Texts, is_mailbox};
use std::alloc::Global;

/// The line feeds that the bytes lack to be empty or end in two.
#[tactic(auto, unfolding(crate::specs::Outcomes::missing_feeds))]
pub fn missing_feeds(bytes: &[u8]) -> &'static [u8]
    ensures { result.now ≡ missing_feeds bytes.now }
{
    if bytes.is_empty() || bytes.ends_with(b"\n\n") {
        b""
    } else if bytes.ends_with(b"\n") {
        b"\n"
    } else {
        b"\n\n"
    }
}

/// Puts a text and its two line feeds at the end of a file.
fn push_written(file: &mut Text, text: &[u8]) -> Result<(), Memory>
    ensures { OnOk result (file.new ≡ file.old ++ written text.now) }
{
    file.push(text)?;
    file.push(b"\n\n")
}

// How much room texts take, each with its two line feeds.
fn room_of(texts: &[Text]) -> usize {
    let mut room: usize = 0;
    for text in texts {
        room = room.saturating_add(text.bytes().len()).saturating_add(2);
    }
    room
}

/// Puts texts at the end of a file, each with its two line feeds; room for all is made at once.
fn push_texts(file: &mut Text, texts: &[Text]) -> Result<(), Memory>
    ensures { OnOk result (file.new ≡ file.old ++ join texts.now) }
{
    file.reserve(room_of(texts))?;
    for text in texts {
        push_written(file, text.bytes())?;
    }
    Ok(())
}

/// Puts the texts that are left at the end of a file, each with its two line feeds.
fn push_rest(file: &mut Text, texts: &mut Texts<'_>) -> Result<(), Memory>
    ensures { OnOk result (file.new ≡ file.old ++ join texts.old) }
{
    while let Some(text) = texts.next_text() {
        push_written(file, text)?;
    }
    Ok(())
}

/// Takes the texts of a folder from the front of the texts. None if they begin with these; else
/// how many of them stand before the first that the texts lack or have otherwise.
fn first_difference(texts: &mut Texts<'_>, base: &Folder) -> Option<usize>
    ensures same { result ≡ None → texts.old ≡ texts_of base.now ++ texts.new }
    ensures differs { IfSome result (λ k. DiffersAt (texts_of base.now) texts.old k) }
    ensures bound { IfSome result (λ k. k < message_limit) }
{
    for k in 0..base.count() {
        match texts.next_text() {
            Some(text) => {
                if text != base.message(k).text() {
                    return Some(k);
                }
            }
            None => return Some(k),
        }
    }
    None
}

/// The file of texts and then those that are left: None if there are none and it isn't kept.
fn rewritten_file(
    alloc: Global,
    list: &[Text],
    rest: &mut Texts<'_>,
    keep: bool,
) -> Result<Option<Text>, Memory>
    ensures { IfOk result (λ file. file ≡ file_of (join list.now ++ join rest.old) keep) }
{
    let mut file = Text::new(alloc);
    push_texts(&mut file, list)?;
    push_rest(&mut file, rest)?;
    if file.bytes().is_empty() && !keep {
        return Ok(None);
    }
    Ok(Some(file))
}

/// The texts of `list` in place of the folder's, and then the rest of the current ones.
fn rewrite(
    alloc: Global,
    current: &[u8],
    list: &[Text],
    keep: bool,
    base: &Folder,
) -> Result<Option<Text>, ChangeError>
    ensures ok { IfOk result (λ file.
        rewrite_of (list_of current.now) list.now keep (texts_of base.now) ≡ Ok file) }
    ensures err { IfErr result (λ error.
        Explains error (rewrite_of (list_of current.now) list.now keep (texts_of base.now))) }
{
    if !is_mailbox(current) {
        return Err(ChangeError::Changed { at: 1 });
    }
    let mut texts = Texts::of(current);
    match first_difference(&mut texts, base) {
        Some(k) => Err(ChangeError::Changed { at: k as u64 + 1 }),
        None => Ok(rewritten_file(alloc, list, &mut texts, keep)?),
    }
}

/// Puts texts behind what a file holds, in its place: the line feeds that it lacks, and the texts, each with its own two.
pub fn add_texts(file: &mut Text, texts: &[Text]) -> Result<(), Memory>
    ensures { OnOk result (file.new ≡ file.old ++ missing_feeds file.old ++ join texts.now) }
{
    let feeds = missing_feeds(file.bytes());
    file.push(feeds)?;
    push_texts(file, texts)
}

/// The current bytes, the line feeds that they lack, and the texts.
fn add(alloc: Global, current: &[u8], texts: &[Text]) -> Result<Text, Memory>
    ensures { IfOk result (λ file.
        file ≡ current.now ++ missing_feeds current.now ++ join texts.now) }
{
    let mut file = Text::copy(alloc, current)?;
    add_texts(&mut file, texts)?;
    Ok(file)
}

/// The texts and then the current bytes.
fn front(alloc: Global, current: &[u8], texts: &[Text]) -> Result<Text, Memory>
    ensures { IfOk result (λ file. file ≡ join texts.now ++ current.now) }
{
    let mut file = Text::new(alloc);
    push_texts(&mut file, texts)?;
    file.push(current)?;
    Ok(file)
}

/// The current bytes and then the others.
fn add_raw(alloc: Global, current: &[u8], bytes: &[u8]) -> Result<Text, Memory>
    ensures { IfOk result (λ file. file ≡ current.now ++ bytes.now) }
{
    let mut file = Text::copy(alloc, current)?;
    file.push(bytes)?;
    Ok(file)
}

/// The bytes of a file; an absent one has none.
fn current_bytes<'a>(current: Option<&'a [u8]>) -> &'a [u8]
    ensures { result.now ≡ bytes_of (option_copied current.entry) }
{
    current.unwrap_or(b"")
}

/// What a change makes of a file: its bytes, or None if it is absent afterwards. `current` is
/// the file's bytes, None if it is absent; `base` is the folder that a Rewrite was made for.
/// `Changed` only for a Rewrite, if the file's messages don't begin with those of the folder.
pub fn outcome(
    alloc: Global,
    current: Option<&[u8]>,
    change: &Change,
    base: Option<&Folder>,
) -> Result<Option<Text>, ChangeError>
    requires { IsTrue (is_rewrite change.now) → IsSome base }
    ensures ok { let texts = base_list (option_copied base.entry) in
        IfOk result (λ file. outcome_of (option_copied current.entry) change.now texts ≡ Ok file) }
    ensures err { let texts = base_list (option_copied base.entry) in
        IfErr result (λ error. Explains error (outcome_of (option_copied current.entry) change.now texts)) }
{
    let bytes = current_bytes(current);
    match change {
        Change::Rewrite { list, keep, .. } => rewrite(
            alloc,
            bytes,
            list.items(),
            *keep,
            base.unwrap(),
        ),
        Change::Add { texts, .. } => Ok(Some(add(alloc, bytes, texts.items())?)),
        Change::Front { texts, .. } => Ok(Some(front(alloc, bytes, texts.items())?)),
        Change::AddRaw { bytes: raw, .. } => Ok(Some(add_raw(alloc, bytes, raw.bytes())?)),
    }
}
