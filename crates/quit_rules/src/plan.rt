ghost use Rattle.std.specs.Prelude.{◌≡◌, ◌≤◌, length, take, IfOk};
ghost use Rattle.mbox_scan.specs.Mailbox.{texts_of};
ghost use Rattle.quit_rules.specs.Plans.{IsOpen, leaving_changes, quit_changes, mbox_change, mbox_changes, unchanged_len, messages_of, ArePartsOf};

use crate::gathered::gathered_changes;
use crate::{BatchItem, Fate, Open, Rules};
use folder_change::Change;
use mail_text::{Items, Memory, Text};
use mailx_vars::Vars;
use message_state::{is_stamped, stamped};
use std::alloc::Global;

// How many messages at the front stay as they are.
fn unchanged_len(alloc: Global, folder: &Open, rules: Rules) -> Result<usize, Memory>
    requires { IsOpen folder.now }
    ensures { IfOk result (λ count. count ≡ unchanged_len rules (messages_of folder.now)) }
{
    let marks = folder.marks.items();
    for k in 0..folder.folder.count() {
        let mark = marks[k];
        let text = folder.folder.message(k).text();
        if !rules.fate(mark.state).is_staying() || !is_stamped(alloc, text, mark)? {
            return Ok(k);
        }
    }
    Ok(marks.len())
}

// The stamped texts of messages: those that stay and those that go to mbox.
#[derive(Drop)]
pub(crate) struct Parts {
    pub(crate) staying: Items<Text>,
    pub(crate) boxed: Items<Text>,
}

// The first texts of a folder, as they are.
fn front(alloc: Global, folder: &Open, count: usize) -> Result<Items<Text>, Memory>
    requires { count ≤ length (texts_of folder.now.folder) }
    ensures { IfOk result (λ texts. texts ≡ take count (texts_of folder.now.folder)) }
{
    let mut texts = Items::new(alloc);
    for k in 0..count {
        texts.push(Text::copy(alloc, folder.folder.message(k).text())?)?;
    }
    Ok(texts)
}

// The texts of a folder that stay and that go to mbox. The first `unchanged` ones stay as they are, so that
// they aren't read again.
fn parts_of(alloc: Global, folder: &Open, rules: Rules, unchanged: usize) -> Result<Parts, Memory>
    requires open { IsOpen folder.now }
    requires unchanged { unchanged ≡ unchanged_len rules (messages_of folder.now) }
    ensures { IfOk result (ArePartsOf rules (messages_of folder.now)) }
{
    let marks = folder.marks.items();
    let mut staying = front(alloc, folder, unchanged)?;
    let mut boxed = Items::new(alloc);
    for k in unchanged..folder.folder.count() {
        let mark = marks[k];
        let text = folder.folder.message(k).text();
        match rules.fate(mark.state) {
            Fate::Stays => staying.push(stamped(alloc, text, mark)?)?,
            Fate::GoesToMbox => boxed.push(stamped(alloc, text, mark)?)?,
            Fate::Leaves => {}
        }
    }
    Ok(Parts { staying, boxed })
}

// The change of mbox that puts texts into it: at its front, or with the variable `append` at its end.
fn mbox_change(name: Text, texts: Items<Text>, append: bool) -> Change
    ensures { result ≡ mbox_change name texts append }
{
    if append {
        Change::Add { name, texts }
    } else {
        Change::Front { name, texts }
    }
}

// The changes of mbox: one if there are texts, else none.
fn mbox_changes(
    alloc: Global,
    texts: Items<Text>,
    vars: &Vars,
    mbox: &[u8],
) -> Result<Vec<Change>, Memory>
    ensures { IfOk result (λ changes. changes.items ≡ mbox_changes texts vars.now mbox.now) }
{
    let mut changes = Vec::new(alloc);
    if texts.items().is_empty() {
        return Ok(changes);
    }
    let name = Text::copy(alloc, mbox)?;
    let append = vars.flag(b"append");
    changes.push(mbox_change(name, texts, append))?;
    Ok(changes)
}

// The changes by which the folder is left. If nothing has changed there is no change at all, and no text is copied.
fn leaving_changes(
    alloc: Global,
    folder: &Open,
    vars: &Vars,
    mbox: &[u8],
) -> Result<Vec<Change>, Memory>
    requires { IsOpen folder.now }
    ensures { IfOk result (λ changes. changes.items ≡ leaving_changes folder.now vars.now mbox.now) }
{
    let rules = Rules::of(folder, vars);
    let unchanged = unchanged_len(alloc, folder, rules)?;
    if unchanged == folder.folder.count() {
        let changes = Vec::new(alloc);
        return Ok(changes);
    }
    let Parts { staying, boxed } = parts_of(alloc, folder, rules, unchanged)?;
    let mut changes = mbox_changes(alloc, boxed, vars, mbox)?;
    let name = Text::copy(alloc, folder.name.bytes())?;
    changes.push(Change::Rewrite {
        name,
        list: staying,
        keep: vars.flag(b"keep"),
    })?;
    Ok(changes)
}

/// What a quit changes, in this order: what was gathered is put at the end of its files; the stamped texts that go to
/// mbox are put there, if there are any; then the folder is rewritten to the stamped texts that stay, if these aren't
/// the texts that it has. The base of that Rewrite is `folder`. If nothing has changed, no text of the folder is copied.
pub fn quit_changes(
    alloc: Global,
    folder: &Open,
    vars: &Vars,
    mbox: &[u8],
    gathered: &[BatchItem],
) -> Result<Vec<Change>, Memory>
    requires { IsOpen folder.now }
    ensures { IfOk result
        (λ changes. changes.items ≡ quit_changes folder.now vars.now mbox.now gathered.now) }
{
    let mut changes = gathered_changes(alloc, gathered)?;
    let mut leaving = leaving_changes(alloc, folder, vars, mbox)?;
    changes.append(&mut leaving)?;
    Ok(changes)
}
