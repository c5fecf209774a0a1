// What an edited message makes of the folder.
ghost use Rattle.std.specs.Prelude.{◌≡◌, ◌≤◌, Some, true, IfOk, OnOk, length};
ghost use Rattle.mbox_scan.specs.Mailbox.{is_message, join, list_of, texts_of};
ghost use Rattle.folder_commands.specs.Editing.{edited_change, edited_texts};

use crate::making::mailbox_of;
use folder_change::Change;
use mail_text::{Items, Memory, Text};
use mbox_scan::Folder;
use std::alloc::Global;

/// The folder once a message was edited, and the change that makes its file so.
#[derive(Drop)]
pub struct Edition {
    pub change: Change,
    pub folder: Folder,
}

// The texts of a folder.
fn all_texts(alloc: Global, folder: &Folder) -> Result<Items<Text>, Memory>
    ensures texts { IfOk result (λ texts. texts ≡ texts_of folder.now) }
    ensures listed { OnOk result (list_of folder.now ≡ Some (texts_of folder.now)) }
{
    let mut texts = Items::new(alloc);
    for k in 0..folder.count() {
        texts.push(Text::copy(alloc, folder.message(k).text())?)?;
    }
    Ok(texts)
}

// The texts of a folder, with this one as that of message n.
fn edited_texts(alloc: Global, folder: &Folder, n: u32, text: &[u8]) -> Result<Items<Text>, Memory>
    requires some { 1 ≤ n }
    requires within { n ≤ length (texts_of folder.now) }
    ensures texts { IfOk result (λ texts. texts ≡ edited_texts folder.now n text.now) }
    ensures listed { OnOk result (list_of folder.now ≡ Some (texts_of folder.now)) }
{
    let mut texts = all_texts(alloc, folder)?;
    let text = Text::copy(alloc, text)?;
    *texts.get_mut(n as usize - 1) = text;
    Ok(texts)
}

// The folder of these bytes.
fn folder_of(alloc: Global, bytes: Text) -> Result<Folder, Memory>
    ensures is { IfOk result (λ folder. folder ≡ bytes) }
    ensures listed { OnOk result (list_of bytes ≡ Some (texts_of bytes)) }
{
    match Folder::open(alloc, bytes) {
        Ok(folder) => Ok(folder),
        Err(_) => Err(Memory),
    }
}

/// What this text, which is a message, makes of the folder of this name as that of message n.
pub fn edition_of(
    alloc: Global,
    folder: &Folder,
    name: &[u8],
    n: u32,
    text: &[u8],
) -> Result<Edition, Memory>
    requires some { 1 ≤ n }
    requires within { n ≤ length (texts_of folder.now) }
    requires message { is_message text.now ≡ true }
    ensures change { IfOk result
        (λ made. made.change ≡ edited_change name.now (edited_texts folder.now n text.now)) }
    ensures folder { IfOk result (λ made. made.folder ≡ join (edited_texts folder.now n text.now)) }
    ensures listed { IfOk result (λ made. texts_of made.folder ≡ edited_texts folder.now n text.now) }
{
    let texts = edited_texts(alloc, folder, n, text)?;
    let bytes = mailbox_of(alloc, texts.items())?;
    let folder = folder_of(alloc, bytes)?;
    let change = Change::Rewrite {
        name: Text::copy(alloc, name)?,
        list: texts,
        keep: true,
    };
    Ok(Edition { change, folder })
}
