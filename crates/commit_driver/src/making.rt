// What a change makes of a file, in the file's own place. Of a file that is only added to, only what comes behind the bytes
// that stay is held, and the last two of those: they decide what an added change puts behind them.
ghost use Rattle.std.specs.Prelude.{◌≡◌, ◌++◌, ℕ, List, true, Ok, Some, Option, IsTrue, IsSome, IsOk, IfOk, IfErr, OnOk, is_some, option_copied};
ghost use Rattle.mbox_scan.specs.Mailbox.{join};
ghost use Rattle.folder_change.specs.Changes.{is_rewrite};
ghost use Rattle.folder_change.specs.Outcomes.{base_list, missing_feeds, outcome_of, Explains};
ghost use Rattle.commit_machine.specs.Edits.{is_added};
ghost use Rattle.commit_driver.specs.Holding.{end_of, IsHeldOf, MakesHeld};

use crate::decision::{END, is_added};
use folder_change::{Change, ChangeError, missing_feeds, outcome};
use mail_text::{Memory, Text};
use mbox_scan::Folder;
use std::alloc::Global;

// The bytes of a file; an absent one has none.
fn bytes_of(file: &Option<Text>) -> Option<&[u8]>
    ensures { option_copied result ≡ file.now }
{
    match file {
        Some(text) => Some(text.bytes()),
        None => None,
    }
}

// The line feeds that bytes lack which end so, with what is held behind them.
fn feeds_behind(alloc: Global, end: &[u8], held: &[u8]) -> Result<&'static [u8], Memory>
    ensures { (front : List ℕ) → end.now ≡ end_of front
        → IfOk result (λ feeds. feeds.now ≡ missing_feeds (front ++ held.now)) }
{
    if END <= held.len() {
        return Ok(missing_feeds(held));
    }
    let mut seam = Text::copy(alloc, end)?;
    seam.push(held)?;
    Ok(missing_feeds(seam.bytes()))
}

// How much room texts take, each with its two line feeds.
fn room_of(texts: &[Text]) -> usize {
    let mut room: usize = 0;
    for text in texts {
        room = room.saturating_add(text.bytes().len()).saturating_add(2);
    }
    room
}

// Puts texts behind what is held, each with its two line feeds; room for all is made at once.
fn push_texts(held: &mut Text, texts: &[Text]) -> Result<(), Memory>
    ensures { OnOk result (held.new ≡ held.old ++ join texts.now) }
{
    held.reserve(room_of(texts))?;
    for text in texts {
        held.push(text.bytes())?;
        held.push(b"\n\n")?;
    }
    Ok(())
}

// Puts texts behind what is held, with the line feeds that are lacking.
fn add_behind(alloc: Global, end: &[u8], held: &mut Text, texts: &[Text]) -> Result<(), Memory>
    ensures { (front : List ℕ) → end.now ≡ end_of front
        → OnOk result (held.new ≡ held.old ++ missing_feeds (front ++ held.old) ++ join texts.now) }
{
    let feeds = feeds_behind(alloc, end, held.bytes())?;
    held.push(feeds)?;
    push_texts(held, texts)
}

// Makes an added change of a file that stands: what it puts behind the file's end is put behind what is held.
fn add(alloc: Global, change: &Change, end: &[u8], held: &mut Text) -> Result<(), Memory>
    requires { is_added change.now ≡ true }
    ensures made { (front : List ℕ) → (texts : List (List ℕ)) → end.now ≡ end_of front
        → OnOk result (outcome_of (Some (front ++ held.old)) change.now texts ≡ Ok (Some (front ++ held.new))) }
    ensures can { (bytes : List ℕ) → (texts : List (List ℕ)) → IsOk (outcome_of (Some bytes) change.now texts) }
{
    match change {
        Change::Add { texts, .. } => add_behind(alloc, end, held, texts.items())?,
        Change::AddRaw { bytes, .. } => held.push(bytes.bytes())?,
        Change::Rewrite { .. } | Change::Front { .. } => {}
    }
    Ok(())
}

// Makes a change of a file that is held whole.
fn change_whole(
    alloc: Global,
    change: &Change,
    base: Option<&Folder>,
    file: &mut Option<Text>,
) -> Result<(), ChangeError>
    requires { IsTrue (is_rewrite change.now) → IsSome base }
    ensures ok { let texts = base_list (option_copied base.entry) in
        OnOk result (outcome_of file.old change.now texts ≡ Ok file.new) }
    ensures err { let texts = base_list (option_copied base.entry) in
        IfErr result (λ error. Explains error (outcome_of file.old change.now texts)) }
{
    match file {
        Some(text) if is_added(change) => Ok(add(alloc, change, b"", text)?),
        _ => {
            *file = outcome(alloc, bytes_of(file), change, base)?;
            Ok(())
        }
    }
}

// Makes an added change of what is held of a file.
fn change_part(
    alloc: Global,
    change: &Change,
    end: &[u8],
    file: &mut Option<Text>,
) -> Result<(), Memory>
    requires { is_added change.now ≡ true }
    ensures made { (stay : ℕ) → (whole : Option (List ℕ)) → (texts : List (List ℕ))
        → IsHeldOf (Some stay) end.now whole file.old
        → OnOk result (MakesHeld (Some stay) end.now change.now texts whole file.new) }
    ensures can { (stay : ℕ) → (whole : Option (List ℕ)) → (texts : List (List ℕ))
        → IsHeldOf (Some stay) end.now whole file.old → IsOk (outcome_of whole change.now texts) }
{
    match file {
        Some(held) => add(alloc, change, end, held),
        None => Ok(()),
    }
}

/// Makes a change of a file of which so many bytes stay, that end so; a file that is only added to isn't copied. If the
/// change can't be made, only the reason is told, and the file is no longer of use.
pub fn change_file(
    alloc: Global,
    change: &Change,
    base: Option<&Folder>,
    stay: Option<u64>,
    end: &[u8],
    file: &mut Option<Text>,
) -> Result<(), ChangeError>
    requires based { IsTrue (is_rewrite change.now) → IsSome base }
    requires added { IsTrue (is_some stay) → is_added change.now ≡ true }
    ensures ok { (whole : Option (List ℕ)) → IsHeldOf stay end.now whole file.old
        → OnOk result (MakesHeld stay end.now change.now (base_list (option_copied base.entry)) whole file.new) }
    ensures err { (whole : Option (List ℕ)) → IsHeldOf stay end.now whole file.old
        → IfErr result (λ error. Explains error (outcome_of whole change.now (base_list (option_copied base.entry)))) }
{
    match stay {
        Some(_) => Ok(change_part(alloc, change, end, file)?),
        None => change_whole(alloc, change, base, file),
    }
}
