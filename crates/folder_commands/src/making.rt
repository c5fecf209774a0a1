// What changes make of a file that is to be opened.
ghost use Rattle.std.specs.Prelude.{◌≡◌, ◌++◌, [], Ok, None, codes, option_copied, IfOk};
ghost use Rattle.mbox_scan.specs.Mailbox.{join, texts_of, list_of};
ghost use Rattle.folder_change.specs.Outcomes.{missing_feeds, outcome_of};
ghost use Rattle.command_desk.specs.Answers.{Means, IsRefusal};
ghost use Rattle.command_desk.specs.Faults.{changed_at};
ghost use Rattle.folder_commands.specs.Making.{made, Makes, listed, openable, openable_file, is_other, made_folder};

use command_desk::{Refusal, fault};
use folder_change::{Change, ChangeError, add_texts, change_name, outcome};
use itoa::Buffer;
use mail_text::{Memory, Text};
use mbox_scan::{Folder, ScanError, is_mailbox};
use std::alloc::Global;

/// The most bytes that a file may have.
const MOST_BYTES: usize = 268_435_456;

// The bytes of a file; an absent one has none.
fn bytes_of(file: &Option<Text>) -> Option<&[u8]>
    ensures { option_copied result ≡ file.now }
{
    match file {
        Some(text) => Some(text.bytes()),
        None => None,
    }
}

// Puts texts behind a file, each with its two line feeds.
fn add(mut file: Text, texts: &[Text]) -> Result<Text, Memory>
    ensures { IfOk result (λ now. now ≡ file ++ missing_feeds file ++ join texts.now) }
{
    add_texts(&mut file, texts)?;
    Ok(file)
}

/// The bytes of a mailbox with these texts.
#[tactic(auto, unfolding(folder_change::specs::Outcomes::missing_feeds))]
pub(crate) fn mailbox_of(alloc: Global, texts: &[Text]) -> Result<Text, Memory>
    ensures { IfOk result (λ bytes. bytes ≡ join texts.now) }
{
    add(Text::new(alloc), texts)
}

// Puts bytes behind a file.
fn add_raw(mut file: Text, bytes: &[u8]) -> Result<Text, Memory>
    ensures { IfOk result (λ now. now ≡ file ++ bytes.now) }
{
    file.push(bytes)?;
    Ok(file)
}

// What a change makes of a file. One that is only added to isn't copied.
fn changed_file(
    alloc: Global,
    change: &Change,
    base: &Folder,
    file: Option<Text>,
) -> Result<Option<Text>, ChangeError>
    ensures { Makes (outcome_of file change.now (texts_of base.now)) result }
{
    match (change, file) {
        (Change::Add { texts, .. }, Some(text)) => Ok(Some(add(text, texts.items())?)),
        (Change::AddRaw { bytes, .. }, Some(text)) => Ok(Some(add_raw(text, bytes.bytes())?)),
        (_, file) => outcome(alloc, bytes_of(&file), change, Some(base)),
    }
}

// What those of the changes that are of the file of this name make of it, in order.
fn made(
    alloc: Global,
    changes: &[Change],
    base: &Folder,
    name: &[u8],
    mut file: Option<Text>,
) -> Result<Option<Text>, ChangeError>
    ensures { Makes (made changes.now (texts_of base.now) name.now file) result }
{
    for change in changes {
        if change_name(change) == name {
            file = changed_file(alloc, change, base, file)?;
        }
    }
    Ok(file)
}

// Opens a mailbox, or refuses the file by its messages.
pub(crate) fn listed(alloc: Global, name: &[u8], bytes: Text) -> Result<Folder, Refusal>
    ensures { Means result (listed name.now bytes (list_of bytes)) }
{
    match Folder::open(alloc, bytes) {
        Ok(folder) => Ok(folder),
        Err(ScanError::NotAMailbox) => Err(fault(alloc, name, b": not a mailbox")),
        Err(ScanError::TooMany { .. }) => Err(fault(alloc, name, b": too many messages")),
        Err(ScanError::Memory) => Err(Refusal::Memory),
    }
}

// Opens bytes that a file of this name may have.
fn openable(alloc: Global, name: &[u8], bytes: Text) -> Result<Folder, Refusal>
    ensures { Means result (openable name.now bytes) }
{
    if bytes.bytes().len() > MOST_BYTES {
        Err(fault(alloc, name, b": too large"))
    } else {
        listed(alloc, name, bytes)
    }
}

// The folder without messages.
fn empty_folder(alloc: Global) -> Result<Folder, Refusal>
    ensures { Means result (Ok []) }
{
    match Folder::open(alloc, Text::new(alloc)) {
        Ok(folder) => Ok(folder),
        Err(_) => Err(Refusal::Memory),
    }
}

// Opens a file that is absent, beside whether it stood before.
fn absent_file(alloc: Global, name: &[u8], stood: bool) -> Result<Folder, Refusal>
    ensures { Means result (openable_file name.now None stood) }
{
    if stood {
        empty_folder(alloc)
    } else {
        Err(fault(alloc, name, b": no such file"))
    }
}

// Opens a file as it was made, beside whether it stood before.
fn openable_file(
    alloc: Global,
    name: &[u8],
    file: Option<Text>,
    stood: bool,
) -> Result<Folder, Refusal>
    ensures { Means result (openable_file name.now file stood) }
{
    match file {
        Some(bytes) => openable(alloc, name, bytes),
        None => absent_file(alloc, name, stood),
    }
}

// Refuses a file that has changed.
pub(crate) fn changed(alloc: Global, name: &[u8], at: u64) -> Refusal
    ensures { IsRefusal result (changed_at name.now at) }
{
    let mut buffer = Buffer::new();
    let number = buffer.format(at).as_bytes();
    match cause(alloc, number) {
        Ok(cause) => fault(alloc, name, cause.bytes()),
        Err(Memory) => Refusal::Memory,
    }
}

// What is wrong with a file that has changed at the message of this number.
fn cause(alloc: Global, number: &[u8]) -> Result<Text, Memory>
    ensures { IfOk result (λ cause. cause ≡ codes ": changed at message " ++ number.now) }
{
    let mut cause = Text::copy(alloc, b": changed at message ")?;
    cause.push(number)?;
    Ok(cause)
}

// Whether a file is there that is no mailbox.
fn is_other(file: &Option<Text>) -> bool
    ensures { result ≡ is_other file.now }
{
    match file {
        Some(text) => !is_mailbox(text.bytes()),
        None => false,
    }
}

/// The folder that is opened of the file of this name once the changes were made, which are those of a folder that is
/// left, `base`; `file` is the file before them, None if it is absent. Else the line that says why it can't be
/// opened then: the file is no mailbox, it is absent and stays so, it has changed, or what is made of it is no mailbox,
/// or past a limit.
pub fn made_folder(
    alloc: Global,
    changes: &[Change],
    base: &Folder,
    name: &[u8],
    file: Option<Text>,
) -> Result<Folder, Refusal>
    ensures { Means result (made_folder changes.now (texts_of base.now) name.now file) }
{
    if is_other(&file) {
        return Err(fault(alloc, name, b": not a mailbox"));
    }
    let stood = file.is_some();
    match made(alloc, changes, base, name, file) {
        Ok(file) => openable_file(alloc, name, file, stood),
        Err(ChangeError::Changed { at }) => Err(changed(alloc, name, at)),
        Err(ChangeError::Memory) => Err(Refusal::Memory),
    }
}
