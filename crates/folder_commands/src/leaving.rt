// The command that leaves the folder.
ghost use Rattle.std.specs.Prelude.{◌≡◌, ◌++◌, IfOk, OnOk};
ghost use Rattle.command_desk.specs.Desks.{IsDesk, IsWithin};
ghost use Rattle.folder_commands.specs.Leaving.{changes_of, counted, left_reply, replies, said, quit};

use crate::saving::receipt;
use command_desk::{Ask, Desk, Steps, unchanged};
use folder_change::Change;
use mail_text::{Items, Memory, Text};
use quit_rules::{BatchItem, boxed, kept, quit_changes};
use std::alloc::Global;

// Puts the replies of what was gathered.
fn put_replies(out: &mut Text, gathered: &[BatchItem]) -> Result<(), Memory>
    ensures { OnOk result (out.new ≡ out.old ++ replies gathered.now) }
{
    for one in gathered {
        out.push(one.reply.bytes())?;
    }
    Ok(())
}

// Puts the line of what became of `count` messages, if there are any.
fn put_count(
    alloc: Global,
    out: &mut Text,
    name: &[u8],
    done: &[u8],
    count: u64,
) -> Result<(), Memory>
    ensures { OnOk result (out.new ≡ out.old ++ counted name.now done.now count) }
{
    if count == 0 {
        return Ok(());
    }
    let line = receipt(alloc, name, done, count as usize)?;
    out.push(line.bytes())
}

/// What is printed once the folder was left: the replies of what was gathered, and what became of the messages.
pub(crate) fn left_reply(alloc: Global, desk: &Desk) -> Result<Text, Memory>
    requires { IsDesk desk.now }
    ensures { IfOk result (λ reply. reply ≡ left_reply desk.now) }
{
    let mut out = Text::new(alloc);
    let saved = boxed(&desk.folder, &desk.vars);
    let held = kept(&desk.folder, &desk.vars);
    put_replies(&mut out, desk.gathered.items())?;
    put_count(alloc, &mut out, desk.places.mbox.bytes(), b"Saved", saved)?;
    put_count(alloc, &mut out, desk.folder.name.bytes(), b"Held", held)?;
    Ok(out)
}

/// The changes by which the folder is left, after those that were gathered.
pub(crate) fn changes_of(alloc: Global, desk: &Desk) -> Result<Vec<Change>, Memory>
    requires { IsDesk desk.now }
    ensures { IfOk result (λ changes. changes.items ≡ changes_of desk.now) }
{
    quit_changes(
        alloc,
        &desk.folder,
        &desk.vars,
        desk.places.mbox.bytes(),
        desk.gathered.items(),
    )
}

// Asks for bytes to be printed, if there are any.
fn ask_said(asks: &mut Items<Ask>, text: Text) -> Result<(), Memory>
    ensures { OnOk result (asks.new ≡ asks.old ++ said text) }
{
    if text.bytes().is_empty() {
        return Ok(());
    }
    asks.push(Ask::Say(text))
}

/// `quit`, and the end of the input: the folder is left. What `quit_changes` gives for it is committed, what was gathered
/// first; then the replies of that are printed, and how many messages went to mbox and how many stay, each if there are
/// any; then the run ends.
pub fn quit(alloc: Global, desk: &Desk) -> Result<Steps, Memory>
    requires { IsDesk desk.now }
    ensures steps { IfOk result (λ steps. steps ≡ quit desk.now) }
    ensures within { IsWithin desk.now result }
{
    let changes = changes_of(alloc, desk)?;
    let reply = left_reply(alloc, desk)?;
    let mut asks = Items::new(alloc);
    asks.push(Ask::Commit {
        changes: Items::of(changes),
    })?;
    ask_said(&mut asks, reply)?;
    asks.push(Ask::Exit)?;
    Ok(Steps {
        asks,
        effects: unchanged(alloc),
    })
}
