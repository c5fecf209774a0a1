// Another file, which is opened in place of the folder.
ghost use Rattle.std.specs.Prelude.{◌≡◌, ◌++◌, ◌<◌, true, None, Ok, IfOk, IfSome};
ghost use Rattle.host_port.specs.Calls.{Counts};
ghost use Rattle.host_port.specs.Ran.{Ran};
ghost use Rattle.session_play.specs.Play.{Play, Ask, Ret, Say, Try, Goes};
ghost use Rattle.session_play.specs.Steps.{On};
ghost use Rattle.command_desk.specs.Answers.{Means};
ghost use Rattle.command_desk.specs.Desks.{IsDesk};
ghost use Rattle.show_commands.specs.Paging.{page_size};
ghost use Rattle.session_state.specs.States.{IsState};
ghost use Rattle.mailx_vars.specs.Names.{is_short_name};
ghost use Rattle.session_asks.specs.Openings.{IsKnownSize, IsOpening, with_folder};
ghost use Rattle.session_state.specs.Bringing.{OnlyBrings};
ghost use Rattle.session_asks.specs.Switching.{open_fault, loaded_folder, laid_as, announcement, announced, switching, switched_to, switches};
ghost use Rattle.session_state.specs.Answers.{after_asks, in_play, LineCaused, EndsByAsk};
ghost use Rattle.session_asks.specs.Asks.{KeepsDesk, IsRefusedSo};

use crate::asks::all_done;
use crate::greetings::announcement;
use crate::opening::{Opening, opening_of, put_folder};
use command_desk::{Refusal, fault, line_of};
use folder_change::Change;
use folder_commands::made_folder;
use host_port::Host;
use mail_text::{Items, Memory, Text};
use mailx_vars::is_short_name;
use mbox_scan::Folder;
use read_commands::Desk;
use session_play::{Found, try_load};
use session_state::{AskResult, RunError, SessionState, commit, names_fault, placed, say};
use std::alloc::Global;

// What stands in the way of a load: what is wrong with the name of the file, or else with that of one that is changed.
fn open_fault(
    alloc: Global,
    state: &SessionState,
    name: &[u8],
    changes: &[Change],
) -> Result<Option<Text>, Memory>
    ensures { IfOk result (λ fault. fault ≡ open_fault state.now name.now changes.now) }
{
    let file = placed(alloc, state.here.bytes(), name)?;
    if is_short_name(file.bytes()) {
        names_fault(alloc, state, changes)
    } else {
        Ok(Some(line_of(alloc, name, b": bad name")?))
    }
}

// Opens a file of this name by what its load found, as the changes of the folder that is left make it.
fn loaded_folder(
    alloc: Global,
    desk: &Desk,
    changes: &[Change],
    name: &[u8],
    found: Option<Found>,
) -> Result<Folder, Refusal>
    ensures { Means result (loaded_folder desk.now changes.now name.now found) }
{
    match found {
        Some(Found::Bytes { held: true, .. }) => Err(fault(alloc, name, b": busy")),
        Some(Found::Bytes { bytes, held: false }) => {
            made_folder(alloc, changes, &desk.folder.folder, name, bytes)
        }
        Some(Found::TooLarge { .. }) => Err(fault(alloc, name, b": too large")),
        None => Err(fault(alloc, name, b": cannot be read")),
    }
}

// Puts a folder on the desk in place of the one of this name, and drops what was gathered.
fn install_folder(desk: &mut Desk, opening: Opening, previous: Text)
    requires size { IsKnownSize (page_size desk.old) opening.size }
    requires some { IfSome opening.size (λ n. 0 < n) }
    requires desk { IsDesk (with_folder desk.old opening.folder opening.shown) }
    ensures put { desk.new ≡ laid_as desk.old opening previous }
    ensures valid { IsDesk desk.new }
{
    let Opening {
        size,
        folder,
        shown,
    } = opening;
    put_folder(desk, size, folder, shown);
    desk.previous = previous;
    desk.gathered.clear();
}

// Prints a reply and then the lines of the folder on the desk.
fn say_opened<H: Host>(
    alloc: Global,
    host: &mut H,
    desk: &Desk,
    reply: &Text,
) -> Result<(), RunError>
    requires { IsDesk desk.now }
    ensures ran { Ran H.world host.old host.new
        (λ es. Goes (Ask (Say (reply.now ++ announcement desk.now)) Ret) es (in_play (λ u. u) result)) }
    ensures cause { LineCaused (H.world.counts host.old) (H.world.counts host.new) result }
{
    let text = announcement(alloc, desk, reply.bytes())?;
    say(host, text.bytes())
}

// Puts a folder on the desk and prints its lines after the reply.
fn install_and_announce<H: Host>(
    alloc: Global,
    state: &mut SessionState,
    host: &mut H,
    reply: &Text,
    opening: Opening,
    previous: Text,
) -> Result<AskResult, RunError>
    requires state { IsState state.old }
    requires size { IsKnownSize (page_size state.old.desk) opening.size }
    requires some { IfSome opening.size (λ n. 0 < n) }
    requires desk { IsDesk (with_folder state.old.desk opening.folder opening.shown) }
    ensures ran { let desk = laid_as state.old.desk opening previous in Ran H.world host.old host.new
        (λ es. Goes (announced reply.now desk (On state.old)) es (in_play (after_asks state.new) result)) }
    ensures brings { OnlyBrings state.old state.new }
    ensures valid { IsState state.new }
    ensures desk { KeepsDesk state.old state.new result }
    ensures end { IfOk result EndsByAsk }
    ensures cause { LineCaused (H.world.counts host.old) (H.world.counts host.new) result }
{
    install_folder(&mut state.desk, opening, previous);
    say_opened(alloc, host, &state.desk, reply)?;
    Ok(AskResult::Over)
}

// Commits the changes and opens the folder.
fn commit_and_switch<H: Host>(
    alloc: Global,
    state: &mut SessionState,
    host: &mut H,
    changes: Items<Change>,
    reply: &Text,
    opening: Opening,
    previous: Text,
) -> Result<AskResult, RunError>
    requires state { IsState state.old }
    requires size { IsKnownSize (page_size state.old.desk) opening.size }
    requires some { IfSome opening.size (λ n. 0 < n) }
    requires desk { IsDesk (with_folder state.old.desk opening.folder opening.shown) }
    ensures ran { let desk = laid_as state.old.desk opening previous in Ran H.world host.old host.new
        (λ es. Goes (switching state.old changes reply.now desk) es (in_play (after_asks state.new) result)) }
    ensures brings { OnlyBrings state.old state.new }
    ensures valid { IsState state.new }
    ensures desk { KeepsDesk state.old state.new result }
    ensures end { IfOk result EndsByAsk }
    ensures cause { LineCaused (H.world.counts host.old) (H.world.counts host.new) result }
{
    let asked = commit(alloc, state, host, changes);
    if all_done(&asked) {
        install_and_announce(alloc, state, host, reply, opening, previous)
    } else {
        asked
    }
}

// What is to be put on the desk for a folder of this name, and the name of the one on the desk.
fn opening_named(
    alloc: Global,
    state: &SessionState,
    name: &[u8],
    folder: Folder,
) -> Result<(Opening, Text), Memory>
    requires { IsDesk state.now.desk }
    ensures { IfOk result
        (λ both. IsOpening state.now name.now folder both.0 × (both.1 ≡ state.now.desk.folder.name)) }
{
    let previous = Text::copy(alloc, state.desk.folder.name.bytes())?;
    let name = Text::copy(alloc, name)?;
    let opening = opening_of(alloc, state, name, folder)?;
    Ok((opening, previous))
}

// Opens a folder once the changes were committed.
fn switch_to<H: Host>(
    alloc: Global,
    state: &mut SessionState,
    host: &mut H,
    name: &[u8],
    changes: Items<Change>,
    reply: &Text,
    folder: Folder,
) -> Result<AskResult, RunError>
    requires state { IsState state.old }
    ensures ran { Ran H.world host.old host.new
        (λ es. Goes (switched_to state.old name.now changes reply.now (Ok folder)) es
        (in_play (after_asks state.new) result)) }
    ensures brings { OnlyBrings state.old state.new }
    ensures valid { IsState state.new }
    ensures desk { KeepsDesk state.old state.new result }
    ensures end { IfOk result EndsByAsk }
    ensures cause { LineCaused (H.world.counts host.old) (H.world.counts host.new) result }
{
    let (opening, previous) = opening_named(alloc, state, name, folder)?;
    commit_and_switch(alloc, state, host, changes, reply, opening, previous)
}

/// What a refusal leaves.
pub(crate) fn refused_by(refusal: Refusal) -> Result<AskResult, RunError>
    ensures refused { IsRefusedSo refusal result }
    ensures end { IfOk result EndsByAsk }
    ensures cause { (old : Counts) (new : Counts) → LineCaused old new result }
{
    match refusal {
        Refusal::Fault { line } => Ok(AskResult::Refused { line }),
        Refusal::Memory => Err(RunError::Memory),
    }
}

// Opens a file by what its load found, once the changes were committed.
fn switch_found<H: Host>(
    alloc: Global,
    state: &mut SessionState,
    host: &mut H,
    name: &[u8],
    changes: Items<Change>,
    reply: &Text,
    found: Option<Found>,
) -> Result<AskResult, RunError>
    requires state { IsState state.old }
    ensures ran { Ran H.world host.old host.new (λ es.
        Goes (switched_to state.old name.now changes reply.now
        (loaded_folder state.old.desk changes name.now found))
        es (in_play (after_asks state.new) result)) }
    ensures brings { OnlyBrings state.old state.new }
    ensures valid { IsState state.new }
    ensures desk { KeepsDesk state.old state.new result }
    ensures end { IfOk result EndsByAsk }
    ensures cause { LineCaused (H.world.counts host.old) (H.world.counts host.new) result }
{
    match loaded_folder(alloc, &state.desk, changes.items(), name, found) {
        Ok(folder) => switch_to(alloc, state, host, name, changes, reply, folder),
        Err(refusal) => refused_by(refusal),
    }
}

// Loads a file that is said by this name, and opens it once the changes were committed, whose names were tested.
fn switch_loading<H: Host>(
    alloc: Global,
    state: &mut SessionState,
    host: &mut H,
    name: &[u8],
    file: &[u8],
    changes: Items<Change>,
    reply: &Text,
) -> Result<AskResult, RunError>
    requires state { IsState state.old }
    requires file { is_short_name file.now ≡ true }
    ensures ran { Ran H.world host.old host.new (λ es. Goes (Ask (Try file.now) (λ f.
        switched_to state.old name.now changes reply.now (loaded_folder state.old.desk changes name.now f)))
        es (in_play (after_asks state.new) result)) }
    ensures brings { OnlyBrings state.old state.new }
    ensures valid { IsState state.new }
    ensures desk { KeepsDesk state.old state.new result }
    ensures end { IfOk result EndsByAsk }
    ensures cause { LineCaused (H.world.counts host.old) (H.world.counts host.new) result }
{
    match try_load(alloc, host, file) {
        Ok(found) => switch_found(alloc, state, host, name, changes, reply, found),
        Err(_) => Err(RunError::Memory),
    }
}

// Loads a file whose name was tested, as were those of the changes, and opens it once these were committed.
fn switch_tested<H: Host>(
    alloc: Global,
    state: &mut SessionState,
    host: &mut H,
    name: &[u8],
    changes: Items<Change>,
    reply: &Text,
) -> Result<AskResult, RunError>
    requires state { IsState state.old }
    requires names { open_fault state.old name.now changes ≡ None }
    ensures ran { Ran H.world host.old host.new (λ es. Goes (switches state.old name.now changes reply.now None)
        es (in_play (after_asks state.new) result)) }
    ensures brings { OnlyBrings state.old state.new }
    ensures valid { IsState state.new }
    ensures desk { KeepsDesk state.old state.new result }
    ensures end { IfOk result EndsByAsk }
    ensures cause { LineCaused (H.world.counts host.old) (H.world.counts host.new) result }
{
    let file = placed(alloc, state.here.bytes(), name)?;
    switch_loading(alloc, state, host, name, file.bytes(), changes, reply)
}

/// Opens a file in place of the folder, which is left by these changes: they are committed once the file was loaded.
/// Then the reply and the new folder's lines are printed.
pub(crate) fn switch_folder<H: Host>(
    alloc: Global,
    state: &mut SessionState,
    host: &mut H,
    name: &[u8],
    changes: Items<Change>,
    reply: &Text,
) -> Result<AskResult, RunError>
    requires { IsState state.old }
    ensures ran { let fault = open_fault state.old name.now changes in Ran H.world host.old host.new
        (λ es. Goes (switches state.old name.now changes reply.now fault) es
        (in_play (after_asks state.new) result)) }
    ensures brings { OnlyBrings state.old state.new }
    ensures valid { IsState state.new }
    ensures desk { KeepsDesk state.old state.new result }
    ensures end { IfOk result EndsByAsk }
    ensures cause { LineCaused (H.world.counts host.old) (H.world.counts host.new) result }
{
    match open_fault(alloc, state, name, changes.items())? {
        Some(line) => Ok(AskResult::Refused { line }),
        None => switch_tested(alloc, state, host, name, changes, reply),
    }
}
