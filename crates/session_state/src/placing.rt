// What a name stands for: a name as it is said has another face, the file that the host is told.
ghost use Rattle.std.specs.Prelude.{◌≡◌, IfOk, map};
ghost use Rattle.folder_change.specs.Changes.{name_of};
ghost use Rattle.session_state.specs.Placing.{edit_file, front_of, is_rooted, placed, placed_change, placed_changes, typed_name};

use folder_change::{Change, change_name};
use mail_text::{Items, Memory, Text};
use mailx_vars::is_short_name;
use std::alloc::Global;

// Whether a name begins with `/`.
fn is_rooted(name: &[u8]) -> bool
    ensures { result ≡ is_rooted name.now }
{
    match name {
        [] => false,
        [first, ..] => *first == b'/',
    }
}

/// The file that a name stands for: `here` stands in front of a name that doesn't begin with `/`.
pub fn placed(alloc: Global, here: &[u8], name: &[u8]) -> Result<Text, Memory>
    ensures { IfOk result (λ file. file ≡ placed here.now name.now) }
{
    if name.is_empty() || is_rooted(name) {
        Text::copy(alloc, name)
    } else {
        let mut file = Text::copy(alloc, here)?;
        file.push(name)?;
        Ok(file)
    }
}

/// What stands in front of a name that doesn't begin with `/`, in a run whose working folder has this name.
pub fn front_of(alloc: Global, folder: &[u8]) -> Result<Text, Memory>
    ensures { IfOk result (λ front. front ≡ front_of folder.now) }
{
    if !is_short_name(folder) || !is_rooted(folder) {
        return Ok(Text::new(alloc));
    }
    let mut front = Text::copy(alloc, folder)?;
    if folder != b"/".as_slice() {
        front.push(b"/")?;
    }
    Ok(front)
}

/// The file that an actor edits a text in: its name, `.edit.` and the token in 16 lower case hexadecimal digits.
pub fn edit_file(alloc: Global, actor: &[u8], token: u64) -> Result<Text, Memory>
    ensures { IfOk result (λ name. name ≡ edit_file actor.now token) }
{
    let digits = hex::encode(alloc, token.to_be_bytes())?;
    let mut name = Text::copy(alloc, actor)?;
    name.push(b".edit.")?;
    name.push(digits.as_bytes())?;
    Ok(name)
}

// A change of the file that its name stands for.
fn placed_change(alloc: Global, here: &[u8], change: Change) -> Result<Change, Memory>
    ensures { IfOk result (λ placed. placed ≡ placed_change here.now change) }
{
    match change {
        Change::Rewrite { name, list, keep } => {
            let name = placed(alloc, here, name.bytes())?;
            Ok(Change::Rewrite { name, list, keep })
        }
        Change::Add { name, texts } => {
            let name = placed(alloc, here, name.bytes())?;
            Ok(Change::Add { name, texts })
        }
        Change::Front { name, texts } => {
            let name = placed(alloc, here, name.bytes())?;
            Ok(Change::Front { name, texts })
        }
        Change::AddRaw { name, bytes } => {
            let name = placed(alloc, here, name.bytes())?;
            Ok(Change::AddRaw { name, bytes })
        }
    }
}

// Changes of the files that their names stand for.
fn placed_changes(
    alloc: Global,
    here: &[u8],
    changes: Items<Change>,
) -> Result<Items<Change>, Memory>
    ensures { IfOk result (λ all. all ≡ placed_changes here.now changes) }
{
    let mut all = Items::new(alloc);
    for change in changes.into_vec() {
        all.push(placed_change(alloc, here, change)?)?;
    }
    Ok(all)
}

// The names of changes.
fn names_of(alloc: Global, changes: &[Change]) -> Result<Items<Text>, Memory>
    ensures { IfOk result (λ names. names ≡ map name_of changes.now) }
{
    let mut names = Items::new(alloc);
    for change in changes {
        names.push(Text::copy(alloc, change_name(change))?)?;
    }
    Ok(names)
}

/// Changes of files, and the names by which the files are said.
#[derive(Drop)]
pub(crate) struct Targets {
    pub names: Items<Text>,
    pub changes: Items<Change>,
}

/// Changes of the files that their names stand for.
pub(crate) fn place(alloc: Global, here: &[u8], changes: Items<Change>) -> Result<Targets, Memory>
    ensures names { IfOk result (λ made. made.names ≡ map name_of changes) }
    ensures changes { IfOk result (λ made. made.changes ≡ placed_changes here.now changes) }
{
    let names = names_of(alloc, changes.items())?;
    let changes = placed_changes(alloc, here, changes)?;
    Ok(Targets { names, changes })
}

/// How a file is said: as the first of these names that stands for it.
pub(crate) fn typed_name(
    alloc: Global,
    here: &[u8],
    names: &[Text],
    file: Text,
) -> Result<Text, Memory>
    ensures { IfOk result (λ said. said ≡ typed_name here.now names.now file) }
{
    for name in names {
        let stands = placed(alloc, here, name.bytes())?;
        if stands.bytes() == file.bytes() {
            return Text::copy(alloc, name.bytes());
        }
    }
    Ok(file)
}
