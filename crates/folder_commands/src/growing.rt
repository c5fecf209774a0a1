// What was added to the file of the open folder.
ghost use Rattle.std.specs.Prelude.{◌≡◌, ◌++◌, ℕ, List, codes, drop, length, Ok, true, IfOk, IfErr, OnOk, OnErr};
ghost use Rattle.mbox_scan.specs.Mailbox.{texts_of, list_of};
ghost use Rattle.command_desk.specs.Answers.{IsRefused};
ghost use Rattle.folder_commands.specs.Making.{listed};
ghost use Rattle.folder_commands.specs.Growing.{changed_from, grown, news_line, newmail};

use crate::making;
use command_desk::{Ask, Refusal, Steps, unchanged};
use folder_change::{Change, ChangeError, outcome};
use itoa::Buffer;
use mail_text::{Items, Memory, Text};
use mbox_scan::{Folder, GrowError};
use std::alloc::Global;

// The number of the first message of the folder that the bytes lack or have otherwise, if there is one; 1 if they are
// no mailbox.
fn changed_from(alloc: Global, folder: &Folder, bytes: &[u8]) -> Result<Option<u64>, Memory>
    ensures { IfOk result (λ at. at ≡ changed_from (texts_of folder.now) (list_of bytes.now)) }
{
    let change = Change::Rewrite {
        name: Text::new(alloc),
        list: Items::new(alloc),
        keep: true,
    };
    match outcome(alloc, Some(bytes), &change, Some(folder)) {
        Ok(_) => Ok(None),
        Err(ChangeError::Changed { at }) => Ok(Some(at)),
        Err(ChangeError::Memory) => Err(Memory),
    }
}

// Puts what the bytes have behind the folder's own at its end, if that only adds messages. If not all went well, the
// folder is as before.
fn grow_by_tail(folder: &mut Folder, bytes: &[u8]) -> Result<bool, Memory>
    ensures grown { result ≡ Ok true → (name : List ℕ) → grown name folder.old bytes.now ≡ Ok folder.new }
    ensures stays { (result ≡ Ok true → ⊥) → folder.new ≡ folder.old }
{
    let own = folder.bytes().len();
    if !bytes.starts_with(folder.bytes()) {
        return Ok(false);
    }
    let (_, tail) = bytes.split_at(own);
    match folder.grow(tail) {
        Ok(_) => Ok(true),
        Err(GrowError::Memory) => Err(Memory),
        Err(_) => Ok(false),
    }
}

// Opens bytes in place of the folder's.
fn reopen(alloc: Global, folder: &mut Folder, name: &[u8], bytes: Text) -> Result<(), Refusal>
    ensures ok { OnOk result (listed name.now bytes (list_of bytes) ≡ Ok folder.new) }
    ensures err { IfErr result (λ refusal. IsRefused refusal (listed name.now bytes (list_of bytes))) }
    ensures stays { OnErr result (folder.new ≡ folder.old) }
{
    *folder = making::listed(alloc, name, bytes)?;
    Ok(())
}

/// Takes what the bytes of the file of this name add to the folder that was opened of it into the folder; what it costs
/// is what came, beside one comparison. Refused are bytes whose messages don't begin with those of the folder, by the
/// line that says from which message on they don't, and too many messages; then the folder is as before.
pub fn grow_folder(
    alloc: Global,
    folder: &mut Folder,
    name: &[u8],
    bytes: Text,
) -> Result<(), Refusal>
    ensures ok { OnOk result (grown name.now folder.old bytes ≡ Ok folder.new) }
    ensures more { OnOk result (texts_of folder.new ≡ texts_of folder.old
        ++ drop (length (texts_of folder.old)) (texts_of folder.new)) }
    ensures err { IfErr result (λ refusal. IsRefused refusal (grown name.now folder.old bytes)) }
    ensures stays { OnErr result (folder.new ≡ folder.old) }
{
    if grow_by_tail(folder, bytes.bytes())? {
        return Ok(());
    }
    match changed_from(alloc, folder, bytes.bytes())? {
        Some(at) => Err(making::changed(alloc, name, at)),
        None => reopen(alloc, folder, name, bytes),
    }
}

/// What is printed of so many messages that were taken in.
pub fn news_line(alloc: Global, count: usize) -> Result<Text, Memory>
    ensures { IfOk result (λ line. line ≡ news_line count) }
{
    let mut buffer = Buffer::new();
    let mut line = Text::copy(alloc, buffer.format(count).as_bytes())?;
    line.push(b" new messages\n")?;
    Ok(line)
}

/// `newmail`: what was added to the folder's file is taken in.
pub fn newmail(alloc: Global) -> Result<Steps, Memory>
    ensures { IfOk result (λ steps. steps ≡ newmail) }
{
    let mut asks = Items::new(alloc);
    asks.push(Ask::Newmail)?;
    Ok(Steps {
        asks,
        effects: unchanged(alloc),
    })
}
