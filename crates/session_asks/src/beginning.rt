// A draft that begins.
ghost use Rattle.std.specs.Prelude.{◌≡◌, None, Some, IfOk, OnOk};
ghost use Rattle.host_port.specs.Ran.{Ran};
ghost use Rattle.session_play.specs.Play.{Play, Goes};
ghost use Rattle.compose_tilde.specs.Views.{view_of, IsView};
ghost use Rattle.command_desk.specs.Desks.{IsDesk};
ghost use Rattle.session_asks.specs.Beginning.{at_message, beginning, begun, begun_with, composing, file_fault, subject_asked, view_as, with_new_draft};
ghost use Rattle.session_state.specs.Bringing.{OnlyBrings};
ghost use Rattle.session_state.specs.States.{IsState, line_ended, with_draft};
ghost use Rattle.session_state.specs.Answers.{after_asks, in_play, LineCaused, EndsByAsk};
ghost use Rattle.session_asks.specs.Asks.{KeepsDesk};

use command_desk::moved;
use compose_tilde::{Compose, ComposeView};
use draft_text::{Draft, flattened};
use host_port::Host;
use mail_text::{Memory, Text};
use read_commands::Desk;
use session_state::{AskResult, RunError, SessionState, name_fault, say};
use std::alloc::Global;

/// What a line of a draft is read with.
pub fn view_as(desk: &Desk) -> ComposeView<'_>
    requires { IsDesk desk.now }
    ensures view { view_of result ≡ view_as desk.now }
    ensures valid { IsView (view_of result) }
{
    ComposeView {
        vars: &desk.vars,
        places: &desk.places,
        shown: &desk.shown,
        folder: Some(&desk.folder.folder),
        sets: &desk.sets,
        mode: desk.mode,
        terminal: desk.terminal,
    }
}

// Prints `Subject: `, if the next line is the subject.
fn ask_subject<H: Host>(host: &mut H, asks: bool) -> Result<(), RunError>
    ensures ran { Ran H.world host.old host.new
        (λ es. Goes (subject_asked asks) es (in_play (λ u. u) result)) }
    ensures cause { LineCaused (H.world.counts host.old) (H.world.counts host.new) result }
{
    if asks {
        say(host, b"Subject: ")
    } else {
        Ok(())
    }
}

// Opens a draft.
fn open_draft(draft: &mut Option<Compose>, compose: Compose)
    ensures { draft.new ≡ Some compose }
{
    *draft = Some(compose);
}

// Opens a draft, once its subject was asked for, if the next line is that. The command is over then.
fn begin_with<H: Host>(
    state: &mut SessionState,
    host: &mut H,
    compose: Compose,
) -> Result<AskResult, RunError>
    requires { IsState state.old }
    ensures ran { Ran H.world host.old host.new
        (λ es. Goes (begun_with state.old compose) es (in_play (after_asks state.new) result)) }
    ensures brings { OnlyBrings state.old state.new }
    ensures valid { IsState state.new }
    ensures desk { KeepsDesk state.old state.new result }
    ensures over { IfOk result (λ asked. asked ≡ AskResult.Over) }
    ensures begun { OnOk result (state.new ≡ with_draft state.old (Some compose)) }
    ensures cause { LineCaused (H.world.counts host.old) (H.world.counts host.new) result }
{
    let asks = compose.asks_subject(&view_as(&state.desk));
    match ask_subject(host, asks) {
        Ok(()) => {
            open_draft(&mut state.draft, compose);
            Ok(AskResult::Over)
        }
        Err(error) => Err(error),
    }
}

/// Begins a draft, once its subject was asked for, if the next line is that. The command is over then.
pub(crate) fn begin<H: Host>(
    alloc: Global,
    state: &mut SessionState,
    host: &mut H,
    draft: &Draft,
) -> Result<AskResult, RunError>
    requires { IsState state.old }
    ensures ran { Ran H.world host.old host.new
        (λ es. Goes (begun state.old draft.now) es (in_play (after_asks state.new) result)) }
    ensures brings { OnlyBrings state.old state.new }
    ensures valid { IsState state.new }
    ensures desk { KeepsDesk state.old state.new result }
    ensures over { IfOk result (λ asked. asked ≡ AskResult.Over) }
    ensures begun { OnOk result (state.new ≡ with_new_draft state.old draft.now) }
    ensures cause { LineCaused (H.world.counts host.old) (H.world.counts host.new) result }
{
    let draft = flattened(alloc, draft)?;
    begin_with(state, host, Compose::new(alloc, draft))
}

/// Begins the draft of send mode in the same way.
pub fn compose<H: Host>(
    alloc: Global,
    state: &mut SessionState,
    host: &mut H,
    draft: &Draft,
) -> Result<(), RunError>
    requires { IsState state.old }
    ensures ran { Ran H.world host.old host.new
        (λ es. Goes (composing state.old draft.now) es (in_play (λ u. line_ended state.new) result)) }
    ensures valid { IsState state.new }
    ensures begun { OnOk result (state.new ≡ with_new_draft state.old draft.now) }
    ensures cause { LineCaused (H.world.counts host.old) (H.world.counts host.new) result }
{
    match begin(alloc, state, host, draft) {
        Ok(_) => Ok(()),
        Err(error) => Err(error),
    }
}

// Makes message n current, if the desk has at least n messages.
fn move_within(alloc: Global, state: &mut SessionState, n: u32)
    requires { IsState state.old }
    ensures moved { state.new ≡ at_message state.old (Some n) }
    ensures state { IsState state.new }
{
    if n as usize <= state.desk.shown.rows.items().len() {
        let effects = moved(alloc, &state.desk, n);
        match state.desk.apply(effects) {
            Ok(()) => {}
            Err(Memory) => {}
        }
    }
}

// Makes a message current, if one is given.
fn move_to(alloc: Global, state: &mut SessionState, current: Option<u32>)
    requires { IsState state.old }
    ensures moved { state.new ≡ at_message state.old current }
    ensures state { IsState state.new }
{
    if let Some(n) = current {
        move_within(alloc, state, n);
    }
}

// What is wrong with the file of a draft.
fn file_fault(
    alloc: Global,
    state: &SessionState,
    file: &Option<Text>,
) -> Result<Option<Text>, Memory>
    ensures { IfOk result (λ line. line ≡ file_fault state.now file.now) }
{
    match file {
        Some(name) => name_fault(alloc, state, name.bytes()),
        None => Ok(None),
    }
}

// A copy of the name of a file, if there is one.
fn file_copy(alloc: Global, file: &Option<Text>) -> Result<Option<Text>, Memory>
    ensures { IfOk result (λ copy. copy ≡ file.now) }
{
    match file {
        Some(name) => Ok(Some(Text::copy(alloc, name.bytes())?)),
        None => Ok(None),
    }
}

// Begins a draft that is recorded in this file, if it has one of its own; this message is current then.
fn begin_placed<H: Host>(
    alloc: Global,
    state: &mut SessionState,
    host: &mut H,
    draft: &Draft,
    file: &Option<Text>,
    current: Option<u32>,
) -> Result<AskResult, RunError>
    requires { IsState state.old }
    ensures ran { Ran H.world host.old host.new
        (λ es. Goes (beginning state.old draft.now file.now current None) es (in_play (after_asks state.new) result)) }
    ensures brings { OnlyBrings state.old state.new }
    ensures valid { IsState state.new }
    ensures desk { KeepsDesk state.old state.new result }
    ensures end { IfOk result EndsByAsk }
    ensures cause { LineCaused (H.world.counts host.old) (H.world.counts host.new) result }
{
    let copy = file_copy(alloc, file)?;
    match begin(alloc, state, host, draft) {
        Ok(_) => {
            move_to(alloc, state, current);
            state.file = copy;
            Ok(AskResult::Over)
        }
        Err(error) => Err(error),
    }
}

/// Begins a draft that a command asks for, unless something is wrong with the file that it is recorded in, if it has
/// one of its own; this message is current then.
pub(crate) fn begin_recorded<H: Host>(
    alloc: Global,
    state: &mut SessionState,
    host: &mut H,
    draft: &Draft,
    file: &Option<Text>,
    current: Option<u32>,
) -> Result<AskResult, RunError>
    requires { IsState state.old }
    ensures ran { Ran H.world host.old host.new
        (λ es. Goes (beginning state.old draft.now file.now current (file_fault state.old file.now)) es
        (in_play (after_asks state.new) result)) }
    ensures brings { OnlyBrings state.old state.new }
    ensures valid { IsState state.new }
    ensures desk { KeepsDesk state.old state.new result }
    ensures end { IfOk result EndsByAsk }
    ensures cause { LineCaused (H.world.counts host.old) (H.world.counts host.new) result }
{
    match file_fault(alloc, state, file)? {
        Some(line) => Ok(AskResult::Refused { line }),
        None => begin_placed(alloc, state, host, draft, file, current),
    }
}
