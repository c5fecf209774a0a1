// What was added to the file of the folder is taken in.
ghost use Rattle.std.specs.Prelude.{◌≡◌, ◌++◌, ◌≤◌, [], None, true, drop, length, map, IfErr, IfOk, OnErr, OnOk};
ghost use Rattle.host_port.specs.Ran.{Ran};
ghost use Rattle.mbox_scan.specs.Mailbox.{texts_of};
ghost use Rattle.message_state.specs.declared.row.Row.{Row};
ghost use Rattle.session_play.specs.Steps.{Over};
ghost use Rattle.message_state.specs.ShownRows.{IsShown};
ghost use Rattle.folder_commands.specs.Growing.{news_line};
ghost use Rattle.mailx_vars.specs.Names.{is_short_name};
ghost use Rattle.session_play.specs.Play.{Ask, Ret, Say, Try, Goes};
ghost use Rattle.command_desk.specs.Answers.{IsRefused};
ghost use Rattle.command_desk.specs.Desks.{IsDesk};
ghost use Rattle.session_state.specs.Answers.{after_asks, in_play, LineCaused, EndsByAsk};
ghost use Rattle.session_state.specs.declared.state.SessionState.{SessionState};
ghost use Rattle.session_state.specs.Bringing.{OnlyBrings};
ghost use Rattle.session_state.specs.States.{IsState, with_desk};
ghost use Rattle.session_asks.specs.Asks.{KeepsDesk};
ghost use Rattle.session_asks.specs.Renewing.{current_among, folder_fault, loaded_again, taking, telling, renews, IsGrown, ShowsMore, StaysIfRefused, TakesIn};

use crate::opening::{no_folder, push_marks, rows_from};
use crate::switching::refused_by;
use command_desk::{Refusal, fault, line_of};
use folder_commands::{grow_folder, news_line};
use host_port::Host;
use mail_text::{Items, Memory, Text};
use mailx_vars::is_short_name;
use mbox_scan::Folder;
use message_state::{Order, Row, RowList, Shown};
use read_commands::Desk;
use session_play::{Found, try_load};
use session_state::{AskResult, RunError, SessionState, placed, say};
use std::alloc::Global;
use thread_view::{View, view_of};

// What is wrong with the name of the folder's file.
fn folder_fault(alloc: Global, state: &SessionState) -> Result<Option<Text>, Memory>
    ensures { IfOk result (λ fault. fault ≡ folder_fault state.now) }
{
    let name = state.desk.folder.name.bytes();
    let file = placed(alloc, state.here.bytes(), name)?;
    if is_short_name(file.bytes()) {
        Ok(None)
    } else {
        Ok(Some(line_of(alloc, name, b": bad name")?))
    }
}

// Puts the bytes of its file in place of the folder's, if they only add messages.
fn grow_bytes(alloc: Global, desk: &mut Desk, found: Option<Found>) -> Result<(), Refusal>
    ensures ok { OnOk result (IsGrown desk.old found desk.new) }
    ensures more { OnOk result (texts_of desk.new.folder.folder ≡ texts_of desk.old.folder.folder
        ++ drop (length (texts_of desk.old.folder.folder)) (texts_of desk.new.folder.folder)) }
    ensures err { IfErr result (λ refusal. IsRefused refusal (loaded_again desk.old found)) }
    ensures stays { OnErr result (desk.new ≡ desk.old) }
{
    match found {
        Some(Found::Bytes { held: true, .. }) => {
            Err(fault(alloc, desk.folder.name.bytes(), b": busy"))
        }
        Some(Found::Bytes { bytes, held: false }) => {
            let bytes = bytes.unwrap_or(Text::new(alloc));
            grow_folder(
                alloc,
                &mut desk.folder.folder,
                desk.folder.name.bytes(),
                bytes,
            )
        }
        Some(Found::TooLarge { .. }) => {
            Err(fault(alloc, desk.folder.name.bytes(), b": too large"))
        }
        None => Err(fault(alloc, desk.folder.name.bytes(), b": cannot be read")),
    }
}

// The message that is current among these: message 1 if none was and one came.
fn current_among(current: u32, rows: &[Row]) -> u32
    ensures { result ≡ current_among current rows.now }
{
    if current == 0 {
        rows.len().min(1) as u32
    } else {
        current
    }
}

// Shows the messages of the folder that aren't shown yet, with their own marks, in a view made anew. Message 1 becomes
// current where none was.
fn show_more(alloc: Global, desk: &mut Desk) -> Result<(), Memory>
    requires listed { length desk.old.shown.rows ≤ length (texts_of desk.old.folder.folder) }
    requires marks { desk.old.folder.marks ≡ map (λ (row : Row). row.mark) desk.old.shown.rows }
    requires shown { IsShown desk.old.shown }
    ensures shows { OnOk result (ShowsMore desk.old desk.new) }
    ensures shown { OnOk result (IsShown desk.new.shown) }
    ensures longer { OnOk result (length desk.old.shown.rows ≤ length desk.new.shown.rows) }
    ensures places { desk.new.places ≡ desk.old.places }
{
    let shown = desk.shown.rows.items().len();
    let more = rows_from(alloc, &desk.folder.folder, shown)?;
    push_marks(&mut desk.folder.marks, more.items())?;
    desk.shown.rows.add(more)?;
    let View { order, depth, .. } = view_of(alloc, desk.shown.rows.items(), desk.view)?;
    desk.shown.order = order;
    desk.shown.depth = depth;
    desk.shown.current = current_among(desk.shown.current, desk.shown.rows.items());
    Ok(())
}

// Takes the folder's messages off the desk.
fn clear(alloc: Global, desk: &mut Desk, none: Folder)
    requires none { none ≡ [] }
    requires width { 2 ≤ desk.old.places.width }
    ensures { IsDesk desk.new }
{
    desk.folder.folder = none;
    desk.folder.marks = Items::new(alloc);
    desk.shown = Shown {
        rows: RowList::new(alloc),
        order: Order::new(alloc),
        depth: Items::new(alloc),
        current: 0,
    };
}

// Takes in what was added to the folder's file, by what its load found. If memory runs out in it the desk is left
// without messages.
fn add_messages(alloc: Global, desk: &mut Desk, found: Option<Found>) -> Result<(), Refusal>
    requires { IsDesk desk.old }
    ensures ok { OnOk result (TakesIn desk.old found desk.new) }
    ensures err { IfErr result (λ refusal. IsRefused refusal (loaded_again desk.old found)) }
    ensures longer { OnOk result (length desk.old.shown.rows ≤ length desk.new.shown.rows) }
    ensures valid { IsDesk desk.new }
    ensures stays { IfErr result (λ refusal. StaysIfRefused refusal desk.old desk.new) }
{
    let none = no_folder(alloc)?;
    grow_bytes(alloc, desk, found)?;
    match show_more(alloc, desk) {
        Ok(()) => Ok(()),
        Err(Memory) => {
            clear(alloc, desk, none);
            Err(Refusal::Memory)
        }
    }
}

/// Prints bytes, with which the command is over.
pub(crate) fn say_last<H: Host>(host: &mut H, bytes: &Text) -> Result<AskResult, RunError>
    ensures ran { (s : SessionState) → Ran H.world host.old host.new
        (λ es. Goes (Ask (Say bytes.now) (λ _. Ret (Over s))) es (in_play (after_asks s) result)) }
    ensures desk { (s : SessionState) → (t : SessionState) → KeepsDesk s t result }
    ensures end { IfOk result EndsByAsk }
    ensures cause { LineCaused (H.world.counts host.old) (H.world.counts host.new) result }
{
    match say(host, bytes.bytes()) {
        Ok(()) => Ok(AskResult::Over),
        Err(error) => Err(error),
    }
}

// Prints how many messages came to so many on a desk.
fn say_news<H: Host>(
    alloc: Global,
    host: &mut H,
    before: usize,
    desk: &Desk,
) -> Result<AskResult, RunError>
    requires { before ≤ length desk.now.shown.rows }
    ensures ran { (s : SessionState) → length s.desk.shown.rows ≡ before → Ran H.world host.old host.new
        (λ es. Goes (telling s desk.now) es (in_play (after_asks (with_desk s desk.now)) result)) }
    ensures desk { (s : SessionState) → (t : SessionState) → KeepsDesk s t result }
    ensures end { IfOk result EndsByAsk }
    ensures cause { LineCaused (H.world.counts host.old) (H.world.counts host.new) result }
{
    let line = news_line(alloc, desk.shown.rows.items().len() - before)?;
    say_last(host, &line)
}

// Takes in what was added to the folder's file, by what its load found, and prints how many messages came.
fn add_and_say_news<H: Host>(
    alloc: Global,
    state: &mut SessionState,
    host: &mut H,
    found: Option<Found>,
) -> Result<AskResult, RunError>
    requires state { IsState state.old }
    ensures ran { Ran H.world host.old host.new
        (λ es. Goes (taking state.old (loaded_again state.old.desk found)) es (in_play (after_asks state.new) result)) }
    ensures brings { OnlyBrings state.old state.new }
    ensures valid { IsState state.new }
    ensures desk { KeepsDesk state.old state.new result }
    ensures end { IfOk result EndsByAsk }
    ensures cause { LineCaused (H.world.counts host.old) (H.world.counts host.new) result }
{
    let before = state.desk.shown.rows.items().len();
    match add_messages(alloc, &mut state.desk, found) {
        Ok(()) => say_news(alloc, host, before, &state.desk),
        Err(refusal) => refused_by(refusal),
    }
}

// Loads the file of the folder and takes in what was added to it.
fn load_again<H: Host>(
    alloc: Global,
    state: &mut SessionState,
    host: &mut H,
    file: &[u8],
) -> Result<AskResult, RunError>
    requires state { IsState state.old }
    requires file { is_short_name file.now ≡ true }
    ensures ran { Ran H.world host.old host.new (λ es. Goes (Ask (Try file.now) (λ f.
        taking state.old (loaded_again state.old.desk f))) es (in_play (after_asks state.new) result)) }
    ensures brings { OnlyBrings state.old state.new }
    ensures valid { IsState state.new }
    ensures desk { KeepsDesk state.old state.new result }
    ensures end { IfOk result EndsByAsk }
    ensures cause { LineCaused (H.world.counts host.old) (H.world.counts host.new) result }
{
    match try_load(alloc, host, file) {
        Ok(found) => add_and_say_news(alloc, state, host, found),
        Err(_) => Err(RunError::Memory),
    }
}

// Loads the file of the folder, whose name was tested, and takes in what was added to it.
fn add_new_mail_tested<H: Host>(
    alloc: Global,
    state: &mut SessionState,
    host: &mut H,
) -> Result<AskResult, RunError>
    requires state { IsState state.old }
    requires name { folder_fault state.old ≡ None }
    ensures ran { Ran H.world host.old host.new
        (λ es. Goes (renews state.old None) es (in_play (after_asks state.new) result)) }
    ensures brings { OnlyBrings state.old state.new }
    ensures valid { IsState state.new }
    ensures desk { KeepsDesk state.old state.new result }
    ensures end { IfOk result EndsByAsk }
    ensures cause { LineCaused (H.world.counts host.old) (H.world.counts host.new) result }
{
    let file = placed(alloc, state.here.bytes(), state.desk.folder.name.bytes())?;
    load_again(alloc, state, host, file.bytes())
}

/// Takes in what was added to the folder's file, and prints how many messages came: they stand with their own marks
/// behind those that there are, in a view made anew. A file that is held or can't be read, or whose messages don't begin
/// with those of the folder, is refused by its line.
pub(crate) fn add_new_mail<H: Host>(
    alloc: Global,
    state: &mut SessionState,
    host: &mut H,
) -> Result<AskResult, RunError>
    requires { IsState state.old }
    ensures ran { Ran H.world host.old host.new
        (λ es. Goes (renews state.old (folder_fault state.old)) es (in_play (after_asks state.new) result)) }
    ensures brings { OnlyBrings state.old state.new }
    ensures valid { IsState state.new }
    ensures desk { KeepsDesk state.old state.new result }
    ensures end { IfOk result EndsByAsk }
    ensures cause { LineCaused (H.world.counts host.old) (H.world.counts host.new) result }
{
    match folder_fault(alloc, state)? {
        Some(line) => Ok(AskResult::Refused { line }),
        None => add_new_mail_tested(alloc, state, host),
    }
}
