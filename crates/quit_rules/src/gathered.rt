// What is put at the end of files, and what was gathered of that.
ghost use Rattle.std.specs.Prelude.{◌≡◌, ◌++◌, [], ◌∷◌, length, IfOk, OnOk, OnErr};
ghost use Rattle.quit_rules.specs.Gathering.{change_of, gathered_changes, has_name, with_name, names_of, lacks_place};

use folder_change::Change;
use mail_text::{Items, Memory, Reserved, Text};
use std::alloc::Global;
use std::marker::Model;

/// The most files that changes are gathered for: with mbox and the folder they are as many as one commit takes.
const MOST_FILES: usize = 254;

/// What is put at the end of a file.
#[derive(Drop)]
pub enum Payload {
    /// The texts of messages.
    Texts(Items<Text>),
    /// Bytes, as they are.
    Bytes(Text),
}

/// What is put at the end of a file, now or when the folder is left.
#[derive(Drop)]
pub struct BatchItem {
    /// The name of the file. It may be one that no file can have.
    pub name: Text,
    /// What is put there.
    pub what: Payload,
    /// What is printed once that was done.
    pub reply: Text,
}

// A copy of texts.
fn copies(alloc: Global, texts: &[Text]) -> Result<Items<Text>, Memory>
    ensures { IfOk result (λ copies. copies ≡ texts.now) }
{
    let mut copies = Items::new(alloc);
    for text in texts {
        copies.push(Text::copy(alloc, text.bytes())?)?;
    }
    Ok(copies)
}

impl BatchItem {
    /// The change of the file.
    pub fn change(&self, alloc: Global) -> Result<Change, Memory>
        ensures { IfOk result (λ change. change ≡ change_of self.now) }
    {
        let name = Text::copy(alloc, self.name.bytes())?;
        match &self.what {
            Payload::Texts(texts) => {
                let texts = copies(alloc, texts.items())?;
                Ok(Change::Add { name, texts })
            }
            Payload::Bytes(bytes) => {
                let bytes = Text::copy(alloc, bytes.bytes())?;
                Ok(Change::AddRaw { name, bytes })
            }
        }
    }

    /// The change of the file, and what is printed once it was done. It takes no memory.
    pub fn into_change(self) -> (Change, Text)
        ensures change { result.0 ≡ change_of self }
        ensures reply { result.1 ≡ self.reply }
    {
        let BatchItem { name, what, reply } = self;
        match what {
            Payload::Texts(texts) => (Change::Add { name, texts }, reply),
            Payload::Bytes(bytes) => (Change::AddRaw { name, bytes }, reply),
        }
    }
}

/// The changes of what was gathered, in order.
pub(crate) fn gathered_changes(alloc: Global, gathered: &[BatchItem]) -> Result<Vec<Change>, Memory>
    ensures { IfOk result (λ changes. changes.items ≡ gathered_changes gathered.now) }
{
    let mut changes = Vec::new(alloc);
    for one in gathered {
        changes.push(one.change(alloc)?)?;
    }
    Ok(changes)
}

// Whether a name is among these.
fn has_name(names: &[Text], name: &[u8]) -> bool
    ensures { result ≡ has_name names.now name.now }
{
    names.iter().any(|other| other.bytes() == name)
}

// Puts a name at the end of names, if it isn't among them. If memory runs out, they are as before.
fn note(alloc: Global, names: &mut Items<Text>, name: &[u8]) -> Result<(), Memory>
    ensures ok { OnOk result (names.new ≡ with_name names.old name.now) }
    ensures err { OnErr result (names.new ≡ names.old) }
{
    if has_name(names.items(), name) {
        return Ok(());
    }
    names.push(Text::copy(alloc, name)?)
}

/// What was gathered, in order. Contracts see the list of it; the names of its files are kept beside it.
#[derive(Drop)]
pub struct Batch {
    alloc: Global,
    list: Reserved<BatchItem>,
    names: Items<Text>,
}

impl Model for Batch {
    ghost use Rattle.std.specs.Prelude.{◌≡◌, List};
    ghost use Rattle.quit_rules.specs.declared.gathered.BatchItem.{BatchItem};
    ghost use Rattle.quit_rules.specs.Gathering.{names_of};

    ghost Value = { List BatchItem };

    ghost view = { λ g. g.list.items };

    ghost invariant = { λ g. g.names ≡ names_of g.list.items };
}

impl Batch {
    /// Nothing was gathered. It takes no memory.
    pub fn new(alloc: Global) -> Batch
        ensures { result ≡ [] }
    {
        Batch {
            alloc,
            list: Reserved::new(alloc),
            names: Items::new(alloc),
        }
    }

    /// What was gathered.
    pub fn items(&self) -> &[BatchItem]
        ensures { result.now ≡ self.now }
    {
        self.list.items()
    }

    /// Whether what is to be put into the file of this name can't be gathered: it would be one file too many. It takes
    /// no memory, and as much time as there are files.
    pub fn lacks_place(&self, name: &[u8]) -> bool
        ensures { result ≡ lacks_place self.now name.now }
    {
        !has_name(self.names.items(), name) && self.names.items().len() >= MOST_FILES
    }

    /// Gathers one more, in as much time as there are files. If memory runs out, all is as before.
    pub fn push(&mut self, gathered: BatchItem) -> Result<(), Memory>
        ensures ok { OnOk result (self.new ≡ self.old ++ gathered ∷ []) }
        ensures err { OnErr result (self.new ≡ self.old) }
    {
        self.list.reserve()?;
        note(self.alloc, &mut self.names, gathered.name.bytes())?;
        self.list.put(gathered);
        Ok(())
    }

    /// Drops what was gathered.
    pub fn clear(&mut self)
        ensures { self.new ≡ [] }
    {
        *self = Batch::new(self.alloc);
    }
}
