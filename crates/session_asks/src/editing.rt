// A message that is edited.
ghost use Rattle.std.specs.Prelude.{◌≡◌, ◌<◌, ◌≤◌, ◌-◌, ◌∷◌, [], true, length, slice_get, slice_set, Ok, Some, IfErr, IfOk, IfSome, OnOk};
ghost use Rattle.host_port.specs.Ran.{Ran};
ghost use Rattle.mail_text.specs.Lines.{with_feed};
ghost use Rattle.mbox_scan.specs.Mailbox.{is_message, message_limit, trimmed};
ghost use Rattle.mail_dates.specs.Clock.{IsInYears};
ghost use Rattle.message_state.specs.declared.row.Row.{Row};
ghost use Rattle.message_state.specs.declared.mark.Act.TheVariants.{Look};
ghost use Rattle.thread_view.specs.Views.{IsViewOf};
ghost use Rattle.session_play.specs.Play.{Ask, Ret, Editor, Goes, bind};
ghost use Rattle.session_play.specs.Steps.{On, Over};
ghost use Rattle.command_desk.specs.Answers.{Means};
ghost use Rattle.compose_tilde.specs.Answering.{is_zero};
ghost use Rattle.command_desk.specs.Desks.{IsDesk, IsMessageOf, message_text};
ghost use Rattle.command_desk.specs.Effects.{effect, marked};
ghost use Rattle.folder_commands.specs.Saving.{receipt};
ghost use Rattle.session_state.specs.Answers.{after_asks, in_play, LineCaused, EndsByAsk};
ghost use Rattle.session_state.specs.declared.state.SessionState.{SessionState};
ghost use Rattle.session_state.specs.Bringing.{OnlyBrings};
ghost use Rattle.session_state.specs.Placing.{edit_file};
ghost use Rattle.session_state.specs.Saving.{saved};
ghost use Rattle.session_state.specs.States.{IsState, with_desk};
ghost use Rattle.session_asks.specs.Asks.{KeepsDesk};
ghost use Rattle.session_asks.specs.Editing.{changing, edited, editing, edits, ended_with, is_number, judged, left_by, looked, message_or_fault, told};
ghost use Rattle.session_asks.specs.Edited.{laid_as, IsEdited, IsMade};

use crate::asks::all_done;
use crate::renewing::say_last;
use crate::switching::refused_by;
use command_desk::{Effects, Refusal, fault, marked, message};
use folder_change::Change;
use folder_commands::{Edition, edition_of, receipt};
use host_port::{EditAnswer, Host};
use itoa::Buffer;
use mail_text::{Items, Memory, Text};
use mbox_scan::{Folder, is_message, trimmed_len};
use message_state::{Act, Order, Row, RowList, row_of};
use read_commands::Desk;
use session_play::run_editor;
use session_state::{AskResult, RunError, SessionState, commit, edit_file, refused};
use std::alloc::Global;
use thread_view::{View, ViewKind, view_of};

/// What is to be put on the desk once the change of an edited message was committed.
#[derive(Drop)]
pub struct Edited {
    /// The folder with the edited message.
    pub folder: Folder,
    /// The row of the message, with the mark that it had.
    pub row: Row,
    /// The messages in the view of the desk.
    pub order: Order,
    pub depth: Items<u32>,
    /// The message was looked at, and is current.
    pub effects: Effects,
}

// The line of an editor that ended with this status.
fn ended_with(alloc: Global, status: i32) -> Result<Text, Memory>
    ensures { IfOk result (λ line. line ≡ ended_with status) }
{
    let mut buffer = Buffer::new();
    let mut line = Text::copy(alloc, b"editor ended with ")?;
    line.push(buffer.format(status).as_bytes())?;
    line.push(b"\n")?;
    Ok(line)
}

// A text, if it is a message.
fn message_or_fault(alloc: Global, text: &[u8]) -> Result<Text, Refusal>
    ensures means { Means result (message_or_fault text.now) }
    ensures message { IfOk result (λ left. is_message left ≡ true) }
{
    if is_message(text) {
        Ok(Text::copy(alloc, text)?)
    } else {
        Err(fault(alloc, b"", b"edited text is no message"))
    }
}

// Whether a status is 0.
fn is_zero(status: i32) -> bool
    ensures { result ≡ is_zero status }
{
    status == 0
}

// What an editor left, without its trailing line feeds.
fn trimmed_text(answer: &EditAnswer) -> &[u8]
    ensures { result.now ≡ trimmed answer.now.text }
{
    let text = answer.text.bytes();
    let (front, _) = text.split_at(trimmed_len(text));
    front
}

// What an editor left, without its trailing line feeds, if it is a message.
fn left_by(alloc: Global, answer: &EditAnswer) -> Result<Text, Refusal>
    ensures means { Means result (left_by answer.now) }
    ensures message { IfOk result (λ left. is_message left ≡ true) }
{
    if !is_zero(answer.status) {
        let line = ended_with(alloc, answer.status)?;
        return Err(Refusal::Fault { line });
    }
    if answer.cut {
        Err(fault(alloc, b"", b"too much output"))
    } else {
        message_or_fault(alloc, trimmed_text(answer))
    }
}

// The same, of an editor that may not have run.
fn judged(alloc: Global, answer: Option<EditAnswer>) -> Result<Text, Refusal>
    ensures means { Means result (judged answer) }
    ensures message { IfOk result (λ left. is_message left ≡ true) }
{
    match answer {
        Some(answer) => left_by(alloc, &answer),
        None => Err(fault(alloc, b"", b"editor could not be run")),
    }
}

// The text of a message, and a line feed.
fn text_line(alloc: Global, desk: &Desk, n: u32) -> Result<Text, Memory>
    requires desk { IsDesk desk.now }
    requires message { IsMessageOf desk.now.shown n }
    ensures { IfOk result (λ line. line ≡ with_feed (message_text desk.now n)) }
{
    let mut line = Text::copy(alloc, message(desk, n).text())?;
    line.push(b"\n")?;
    Ok(line)
}

// The view of rows of which that at place `k` is another one; the rows stay, and the other one is handed back.
fn view_with(
    alloc: Global,
    rows: &mut RowList,
    k: usize,
    row: Row,
    kind: ViewKind,
) -> Result<(View, Row), Memory>
    requires within { k < length rows.old }
    requires few { length rows.old ≤ message_limit }
    ensures rows { rows.new ≡ rows.old }
    ensures view { IfOk result (λ made. IsViewOf kind (slice_set rows.old k row) made.0) }
    ensures row { IfOk result (λ made. made.1 ≡ row) }
{
    let was = rows.put(k, row);
    match view_of(alloc, rows.items(), kind) {
        Ok(view) => {
            let back = rows.put(k, was);
            Ok((view, back))
        }
        Err(memory) => {
            let other = rows.put(k, was);
            drop(other);
            Err(memory)
        }
    }
}

// The row of message n.
fn row_at(desk: &Desk, n: u32) -> &Row
    requires { IsMessageOf desk.now.shown n }
    ensures { slice_get desk.now.shown.rows (n - 1) ≡ Some result.now }
{
    &desk.shown.rows.items()[n as usize - 1]
}

// The row of a text that message n is to have, with the mark that it has.
fn row_with(alloc: Global, desk: &Desk, n: u32, text: &[u8]) -> Result<Row, Memory>
    requires desk { IsDesk desk.now }
    requires message { IsMessageOf desk.now.shown n }
    ensures row { IfOk result (λ row. IsMade desk.now n text.now row) }
    ensures years { IfOk result (λ row. IfSome row.moment IsInYears) }
{
    let mut row = row_of(alloc, text)?;
    row.mark = row_at(desk, n).mark;
    Ok(row)
}

// What a look at message n changes.
fn look_at(alloc: Global, desk: &Desk, n: u32) -> Result<Effects, Memory>
    requires desk { IsDesk desk.now }
    requires message { IsMessageOf desk.now.shown n }
    ensures effects { IfOk result (λ effects. effects ≡ marked desk.now Look (n ∷ [])) }
    ensures within { IfOk result (λ effects. IfSome effects.current (λ m. m ≤ length desk.now.shown.rows)) }
{
    marked(alloc, desk, Act::Look, &[n])
}

// One change.
fn one_change(alloc: Global, change: Change) -> Result<Items<Change>, Memory>
    ensures { IfOk result (λ changes. changes ≡ change ∷ []) }
{
    let mut changes = Items::new(alloc);
    changes.push(change)?;
    Ok(changes)
}

// What is to be put on the desk for a text of message n, and the change of its file. The desk stays.
fn make(
    alloc: Global,
    desk: &mut Desk,
    n: u32,
    text: &[u8],
) -> Result<(Items<Change>, Edited), Memory>
    requires desk { IsDesk desk.old }
    requires message { IsMessageOf desk.old.shown n }
    requires text { is_message text.now ≡ true }
    ensures desk { desk.new ≡ desk.old }
    ensures made { IfOk result (λ made. IsEdited desk.old n text.now made.0 made.1) }
{
    let k = n as usize - 1;
    let row = row_with(alloc, desk, n, text)?;
    let effects = look_at(alloc, desk, n)?;
    let name = desk.folder.name.bytes();
    let Edition { change, folder } = edition_of(alloc, &desk.folder.folder, name, n, text)?;
    let changes = one_change(alloc, change)?;
    let (view, row) = view_with(alloc, &mut desk.shown.rows, k, row, desk.view)?;
    let View { order, depth, .. } = view;
    let edited = Edited {
        folder,
        row,
        order,
        depth,
        effects,
    };
    Ok((changes, edited))
}

// Puts an edited message on the desk, where it was looked at and is current.
fn install_text(desk: &mut Desk, n: u32, edited: Edited) -> Result<(), Memory>
    requires message { IsMessageOf desk.old.shown n }
    requires laid { IsDesk (laid_as desk.old n edited) }
    requires looked { IsDesk (effect (laid_as desk.old n edited) edited.effects) }
    ensures ok { OnOk result (desk.new ≡ effect (laid_as desk.old n edited) edited.effects) }
    ensures valid { IsDesk desk.new }
{
    let Edited {
        folder,
        row,
        order,
        depth,
        effects,
    } = edited;
    desk.folder.folder = folder;
    let was = desk.shown.rows.put(n as usize - 1, row);
    desk.shown.order = order;
    desk.shown.depth = depth;
    drop(was);
    match desk.apply(effects) {
        Ok(()) => Ok(()),
        Err(Memory) => Err(Memory),
    }
}

// Puts an edited message on the desk, and prints the receipt of its change.
fn install_and_say<H: Host>(
    state: &mut SessionState,
    host: &mut H,
    n: u32,
    edited: Edited,
    reply: &Text,
) -> Result<AskResult, RunError>
    requires state { IsState state.old }
    requires message { IsMessageOf state.old.desk.shown n }
    requires laid { IsDesk (laid_as state.old.desk n edited) }
    requires looked { IsDesk (effect (laid_as state.old.desk n edited) edited.effects) }
    ensures ran { let desk = effect (laid_as state.old.desk n edited) edited.effects in Ran H.world host.old host.new
        (λ es. Goes (told reply.now desk (On state.old)) es (in_play (after_asks state.new) result)) }
    ensures brings { OnlyBrings state.old state.new }
    ensures valid { IsState state.new }
    ensures desk { KeepsDesk state.old state.new result }
    ensures end { IfOk result EndsByAsk }
    ensures cause { LineCaused (H.world.counts host.old) (H.world.counts host.new) result }
{
    install_text(&mut state.desk, n, edited)?;
    say_last(host, reply)
}

// Commits the change of an edited message, and puts it on the desk then.
fn commit_edited<H: Host>(
    alloc: Global,
    state: &mut SessionState,
    host: &mut H,
    n: u32,
    changes: Items<Change>,
    edited: Edited,
    reply: &Text,
) -> Result<AskResult, RunError>
    requires state { IsState state.old }
    requires message { IsMessageOf state.old.desk.shown n }
    requires laid { IsDesk (laid_as state.old.desk n edited) }
    requires looked { IsDesk (effect (laid_as state.old.desk n edited) edited.effects) }
    ensures ran { let desk = effect (laid_as state.old.desk n edited) edited.effects in Ran H.world host.old host.new
        (λ es. Goes (bind (saved state.old changes) (told reply.now desk)) es (in_play (after_asks state.new) result)) }
    ensures brings { OnlyBrings state.old state.new }
    ensures valid { IsState state.new }
    ensures desk { KeepsDesk state.old state.new result }
    ensures end { IfOk result EndsByAsk }
    ensures cause { LineCaused (H.world.counts host.old) (H.world.counts host.new) result }
{
    let asked = commit(alloc, state, host, changes);
    if all_done(&asked) {
        install_and_say(state, host, n, edited, reply)
    } else {
        asked
    }
}

// Makes the folder with another text for message n, and commits its change.
fn change_text<H: Host>(
    alloc: Global,
    state: &mut SessionState,
    host: &mut H,
    n: u32,
    text: &[u8],
) -> Result<AskResult, RunError>
    requires state { IsState state.old }
    requires message { IsMessageOf state.old.desk.shown n }
    requires text { is_message text.now ≡ true }
    ensures ran { Ran H.world host.old host.new
        (λ es. Goes (changing state.old n text.now) es (in_play (after_asks state.new) result)) }
    ensures brings { OnlyBrings state.old state.new }
    ensures valid { IsState state.new }
    ensures desk { KeepsDesk state.old state.new result }
    ensures end { IfOk result EndsByAsk }
    ensures cause { LineCaused (H.world.counts host.old) (H.world.counts host.new) result }
{
    let reply = receipt(alloc, state.desk.folder.name.bytes(), b"Edited", 1)?;
    let (changes, edited) = make(alloc, &mut state.desk, n, text)?;
    commit_edited(alloc, state, host, n, changes, edited, &reply)
}

// Message n was looked at, and is current.
fn look(alloc: Global, desk: &mut Desk, n: u32) -> Result<(), Memory>
    requires desk { IsDesk desk.old }
    requires message { IsMessageOf desk.old.shown n }
    ensures ok { OnOk result (desk.new ≡ looked desk.old n) }
    ensures valid { IsDesk desk.new }
{
    let effects = look_at(alloc, desk, n)?;
    match desk.apply(effects) {
        Ok(()) => Ok(()),
        Err(Memory) => Err(Memory),
    }
}

// The text of message n was left as it was.
fn look_only(alloc: Global, state: &mut SessionState, n: u32) -> Result<AskResult, RunError>
    requires state { IsState state.old }
    requires message { IsMessageOf state.old.desk.shown n }
    ensures goes { Goes (Ret (Over (with_desk state.old (looked state.old.desk n)))) [] (in_play (after_asks state.new) result) }
    ensures brings { OnlyBrings state.old state.new }
    ensures valid { IsState state.new }
    ensures desk { KeepsDesk state.old state.new result }
    ensures end { IfOk result EndsByAsk }
    ensures memory { IfErr result (λ e. e ≡ RunError.Memory) }
{
    look(alloc, &mut state.desk, n)?;
    Ok(AskResult::Over)
}

// What follows an editor that left this message.
fn take_text<H: Host>(
    alloc: Global,
    state: &mut SessionState,
    host: &mut H,
    n: u32,
    text: &[u8],
) -> Result<AskResult, RunError>
    requires state { IsState state.old }
    requires message { IsMessageOf state.old.desk.shown n }
    requires text { is_message text.now ≡ true }
    ensures ran { Ran H.world host.old host.new
        (λ es. Goes (edited state.old n (Ok text.now)) es (in_play (after_asks state.new) result)) }
    ensures brings { OnlyBrings state.old state.new }
    ensures valid { IsState state.new }
    ensures desk { KeepsDesk state.old state.new result }
    ensures end { IfOk result EndsByAsk }
    ensures cause { LineCaused (H.world.counts host.old) (H.world.counts host.new) result }
{
    if text == message(&state.desk, n).text() {
        look_only(alloc, state, n)
    } else {
        change_text(alloc, state, host, n, text)
    }
}

// What follows an editor that answered so.
fn take_edited<H: Host>(
    alloc: Global,
    state: &mut SessionState,
    host: &mut H,
    n: u32,
    answer: Option<EditAnswer>,
) -> Result<AskResult, RunError>
    requires state { IsState state.old }
    requires message { IsMessageOf state.old.desk.shown n }
    ensures ran { Ran H.world host.old host.new
        (λ es. Goes (edited state.old n (judged answer)) es (in_play (after_asks state.new) result)) }
    ensures brings { OnlyBrings state.old state.new }
    ensures valid { IsState state.new }
    ensures desk { KeepsDesk state.old state.new result }
    ensures end { IfOk result EndsByAsk }
    ensures cause { LineCaused (H.world.counts host.old) (H.world.counts host.new) result }
{
    match judged(alloc, answer) {
        Ok(text) => take_text(alloc, state, host, n, text.bytes()),
        Err(refusal) => refused_by(refusal),
    }
}

// Runs the editor on a text, in a file of this name.
fn run_on<H: Host>(
    alloc: Global,
    state: &mut SessionState,
    host: &mut H,
    n: u32,
    name: &[u8],
    command: &[u8],
    text: &[u8],
) -> Result<AskResult, RunError>
    requires state { IsState state.old }
    requires message { IsMessageOf state.old.desk.shown n }
    ensures ran { let s = state.old in Ran H.world host.old host.new
        (λ es. Goes (Ask (Editor name.now s.desk.places.shell command.now text.now) (λ a. edited s n (judged a)))
        es (in_play (after_asks state.new) result)) }
    ensures brings { OnlyBrings state.old state.new }
    ensures valid { IsState state.new }
    ensures desk { KeepsDesk state.old state.new result }
    ensures end { IfOk result EndsByAsk }
    ensures cause { LineCaused (H.world.counts host.old) (H.world.counts host.new) result }
{
    let shell = state.desk.places.shell.bytes();
    match run_editor(alloc, host, name, shell, command, text) {
        Ok(answer) => take_edited(alloc, state, host, n, answer),
        Err(_) => Err(RunError::Memory),
    }
}

// Runs the editor on the text of message n.
fn edit_message<H: Host>(
    alloc: Global,
    state: &mut SessionState,
    host: &mut H,
    n: u32,
    command: &[u8],
) -> Result<AskResult, RunError>
    requires state { IsState state.old }
    requires message { IsMessageOf state.old.desk.shown n }
    ensures ran { Ran H.world host.old host.new
        (λ es. Goes (editing state.old n command.now) es (in_play (after_asks state.new) result)) }
    ensures brings { OnlyBrings state.old state.new }
    ensures valid { IsState state.new }
    ensures desk { KeepsDesk state.old state.new result }
    ensures end { IfOk result EndsByAsk }
    ensures cause { LineCaused (H.world.counts host.old) (H.world.counts host.new) result }
{
    let name = edit_file(alloc, state.actor.bytes(), state.token)?;
    let text = text_line(alloc, &state.desk, n)?;
    run_on(alloc, state, host, n, name.bytes(), command, text.bytes())
}

// Whether n is the number of a message.
fn is_number(desk: &Desk, n: u32) -> bool
    ensures { result ≡ is_number desk.now n }
{
    1 <= n && n as usize <= desk.shown.rows.items().len()
}

/// Edits message n by this command, which is given its text and a line feed. What the editor left takes the place of the
/// text in the folder's file, by one commit, and then on the desk; messages that others added stay in the file. Refused
/// are an editor that could not be run or failed, what is too long or no message, and then what the commit refuses.
pub(crate) fn edit<H: Host>(
    alloc: Global,
    state: &mut SessionState,
    host: &mut H,
    n: u32,
    command: &[u8],
) -> Result<AskResult, RunError>
    requires { IsState state.old }
    ensures ran { Ran H.world host.old host.new
        (λ es. Goes (edits state.old n command.now) es (in_play (after_asks state.new) result)) }
    ensures brings { OnlyBrings state.old state.new }
    ensures valid { IsState state.new }
    ensures desk { KeepsDesk state.old state.new result }
    ensures end { IfOk result EndsByAsk }
    ensures cause { LineCaused (H.world.counts host.old) (H.world.counts host.new) result }
{
    if is_number(&state.desk, n) {
        edit_message(alloc, state, host, n, command)
    } else {
        Ok(refused(alloc, b"no applicable message", b"")?)
    }
}
