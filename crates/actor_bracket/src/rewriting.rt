// What a change that has its own base makes of a file.
ghost use Rattle.std.specs.Prelude.{◌≡◌, ◌<◌, ◌++◌, None, length, IfOk, IfSome, OnOk};
ghost use Rattle.std.specs.Option.{option_copied};
ghost use Rattle.mbox_scan.specs.Mailbox.{join, list_of, written};
ghost use Rattle.folder_change.specs.Outcomes.{DiffersAt, bytes_of, file_of, missing_feeds, outcome_of, rewrite_of};
ghost use Rattle.core_steps.specs.Changes.{change_of, base_of};

use core_steps::CoreChange;
use folder_change::missing_feeds;
use mail_text::{Memory, Text};
use mbox_scan::{Texts, is_mailbox};
use std::alloc::Global;

// Puts a text and its two line feeds at the end of a file.
fn push_written(file: &mut Text, text: &[u8]) -> Result<(), Memory>
    ensures { OnOk result (file.new ≡ file.old ++ written text.now) }
{
    file.push(text)?;
    file.push(b"\n\n")
}

// Puts texts at the end of a file, each with its two line feeds.
fn push_texts(file: &mut Text, texts: &[Text]) -> Result<(), Memory>
    ensures { OnOk result (file.new ≡ file.old ++ join texts.now) }
{
    for text in texts {
        push_written(file, text.bytes())?;
    }
    Ok(())
}

// Puts the texts that are left at the end of a file, each with its two line feeds.
fn push_rest(file: &mut Text, texts: &mut Texts<'_>) -> Result<(), Memory>
    ensures { OnOk result (file.new ≡ file.old ++ join texts.old) }
{
    while let Some(text) = texts.next_text() {
        push_written(file, text)?;
    }
    Ok(())
}

// Takes the texts of a base from the front of the texts. None if they begin with these; else how many of them stand
// before the first that the texts lack or have otherwise.
fn first_difference(texts: &mut Texts<'_>, base: &[Text]) -> Option<usize>
    ensures same { result ≡ None → texts.old ≡ base.now ++ texts.new }
    ensures differs { IfSome result (λ k. DiffersAt base.now texts.old k) }
    ensures bound { IfSome result (λ k. k < length base.now) }
{
    for k in 0..base.len() {
        match texts.next_text() {
            Some(text) => {
                if text != base[k].bytes() {
                    return Some(k);
                }
            }
            None => return Some(k),
        }
    }
    None
}

// The file of texts and then those that are left: None if there are none and it isn't kept.
fn rewritten_file(
    alloc: Global,
    list: &[Text],
    rest: &mut Texts<'_>,
    keep: bool,
) -> Result<Option<Text>, Memory>
    ensures { IfOk result (λ file. file ≡ file_of (join list.now ++ join rest.old) keep) }
{
    let mut file = Text::new(alloc);
    push_texts(&mut file, list)?;
    push_rest(&mut file, rest)?;
    if file.bytes().is_empty() && !keep {
        return Ok(None);
    }
    Ok(Some(file))
}

// The texts of `list` in place of those of the base, and then the rest of the current ones; or the number, from 1, of the
// first message that is otherwise.
fn rewrite(
    alloc: Global,
    current: &[u8],
    list: &[Text],
    keep: bool,
    base: &[Text],
) -> Result<Result<Option<Text>, u64>, Memory>
    ensures { IfOk result (λ made. made ≡ rewrite_of (list_of current.now) list.now keep base.now) }
{
    if !is_mailbox(current) {
        return Ok(Err(1));
    }
    let mut texts = Texts::of(current);
    match first_difference(&mut texts, base) {
        Some(k) => Ok(Err(k as u64 + 1)),
        None => {
            let file = rewritten_file(alloc, list, &mut texts, keep)?;
            Ok(Ok(file))
        }
    }
}

// The current bytes, the line feeds that they lack, and the texts.
fn add(alloc: Global, current: &[u8], texts: &[Text]) -> Result<Text, Memory>
    ensures { IfOk result (λ file. file ≡ current.now ++ missing_feeds current.now ++ join texts.now) }
{
    let mut file = Text::copy(alloc, current)?;
    file.push(missing_feeds(current))?;
    push_texts(&mut file, texts)?;
    Ok(file)
}

// The texts and then the current bytes.
fn front(alloc: Global, current: &[u8], texts: &[Text]) -> Result<Text, Memory>
    ensures { IfOk result (λ file. file ≡ join texts.now ++ current.now) }
{
    let mut file = Text::new(alloc);
    push_texts(&mut file, texts)?;
    file.push(current)?;
    Ok(file)
}

// The current bytes and then the others.
fn add_raw(alloc: Global, current: &[u8], bytes: &[u8]) -> Result<Text, Memory>
    ensures { IfOk result (λ file. file ≡ current.now ++ bytes.now) }
{
    let mut file = Text::copy(alloc, current)?;
    file.push(bytes)?;
    Ok(file)
}

/// The bytes of a file; an absent one has none.
pub(crate) fn bytes_of(file: Option<&Text>) -> &[u8]
    ensures { result.now ≡ bytes_of (option_copied file.entry) }
{
    match file {
        Some(text) => text.bytes(),
        None => &[],
    }
}

/// What a change makes of a file, or the number, from 1, of the first message at which it is otherwise than the base.
#[tactic(auto, unfolding(folder_change::specs::Outcomes::outcome_of))]
pub(crate) fn outcome(
    alloc: Global,
    file: Option<&Text>,
    change: &CoreChange,
) -> Result<Result<Option<Text>, u64>, Memory>
    ensures { IfOk result
        (λ made. made ≡ outcome_of (option_copied file.entry) (change_of change.now) (base_of change.now)) }
{
    let current = bytes_of(file);
    match change {
        CoreChange::Rewrite {
            list,
            keep,
            base,
            ..
        } => rewrite(alloc, current, list.items(), *keep, base.items()),
        CoreChange::Add { texts, .. } => {
            let made = add(alloc, current, texts.items())?;
            Ok(Ok(Some(made)))
        }
        CoreChange::Front { texts, .. } => {
            let made = front(alloc, current, texts.items())?;
            Ok(Ok(Some(made)))
        }
        CoreChange::AddRaw { bytes, .. } => {
            let made = add_raw(alloc, current, bytes.bytes())?;
            Ok(Ok(Some(made)))
        }
    }
}
