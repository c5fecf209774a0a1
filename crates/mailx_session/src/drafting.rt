// The lines of a draft that is open.
ghost use Rattle.std.specs.Prelude.{◌≡◌, IfOk};
ghost use Rattle.host_port.specs.Ran.{Ran};
ghost use Rattle.session_play.specs.Play.{Goes};
ghost use Rattle.command_desk.specs.Desks.{IsDesk};
ghost use Rattle.command_desk.specs.FileNames.{expanded};
ghost use Rattle.session_asks.specs.Beginning.{view_as};
ghost use Rattle.mailx_session.specs.Drafting.{draft_play, needed, add_to_file, released, written};
ghost use Rattle.mailx_session.specs.Taking.{AwaitsAll, RefusesLine, TookLine};
ghost use Rattle.session_state.specs.States.{IsState};
ghost use Rattle.session_state.specs.Answers.{in_play, next_of, LineCaused, EndsByLine};

use crate::fetching::{Fetching, escape_fault};
use crate::lines::{carry_line, do_steps};
use activities::drive;
use command_desk::{expanded, unchanged};
use compose_tilde::{Compose, ComposeError, Need};
use draft_sending::{end_draft, quit_draft};
use folder_change::Change;
use folder_commands::receipt;
use host_port::Host;
use mail_text::{Items, Memory, Text};
use read_commands::{Ask as Wanted, Desk, Origin, Refusal, Steps};
use session_asks::view_as;
use session_state::{Flow, RunError, SessionState, go_on, say_text};
use std::alloc::Global;

// Bytes are put at the end of a file by a commit, and then the reply is printed.
fn written(alloc: Global, name: Text, bytes: Text) -> Result<Steps, Memory>
    ensures { IfOk result (λ steps. steps ≡ written name bytes) }
{
    let reply = receipt(alloc, name.bytes(), b"Written", 1)?;
    let mut changes = Items::new(alloc);
    changes.push(Change::AddRaw { name, bytes })?;
    let mut asks = Items::new(alloc);
    asks.push(Wanted::Commit { changes })?;
    asks.push(Wanted::Say(reply))?;
    Ok(Steps {
        asks,
        effects: unchanged(alloc),
    })
}

// Puts bytes at the end of the file that a word stands for.
fn add_to_file<H: Host>(
    alloc: Global,
    state: &mut SessionState,
    host: &mut H,
    word: &[u8],
    bytes: Text,
) -> Result<Flow, RunError>
    requires { IsState state.old }
    ensures ran { Ran H.world host.old host.new
        (λ es. Goes (add_to_file state.old (expanded state.old.desk word.now) bytes) es
        (in_play (next_of state.new) result)) }
    ensures state { IsState state.new }
    ensures done { IfOk result EndsByLine }
    ensures cause { LineCaused (H.world.counts host.old) (H.world.counts host.new) result }
{
    match expanded(alloc, &state.desk, word) {
        Ok(name) => {
            let steps = written(alloc, name, bytes)?;
            do_steps(alloc, state, host, steps)
        }
        Err(Refusal::Fault { line }) => go_on(say_text(state, host, &line)),
        Err(Refusal::Memory) => Err(RunError::Memory),
    }
}

// Does what the draft needs.
fn do_need<H: Host>(
    alloc: Global,
    state: &mut SessionState,
    host: &mut H,
    need: Need,
) -> Result<Flow, RunError>
    requires state { IsState state.old }
    requires awaited { AwaitsAll state.old.draft need }
    ensures ran { Ran H.world host.old host.new
        (λ es. Goes (needed state.old need) es (in_play (next_of state.new) result)) }
    ensures state { IsState state.new }
    ensures done { IfOk result EndsByLine }
    ensures cause { LineCaused (H.world.counts host.old) (H.world.counts host.new) result }
{
    match need {
        Need::Command(line) => carry_line(alloc, state, host, Origin::Draft, line.bytes()),
        Need::Put { name, bytes } => add_to_file(alloc, state, host, name.bytes(), bytes),
        Need::Done => end_draft(alloc, state, host),
        Need::Quit => quit_draft(alloc, state, host),
        Need::Drop => {
            state.draft = None;
            state.file = None;
            Ok(Flow::Go)
        }
        need => {
            let mut fetching = Fetching::new(alloc);
            let first = fetching.ask(alloc, state, need)?;
            drive(alloc, state, host, &mut fetching, first)
        }
    }
}

// The draft, if one is open, takes a line, and waits for no answer any more.
fn take_line(desk: &Desk, draft: &mut Option<Compose>, line: &[u8]) -> Result<Need, ComposeError>
    requires { IsDesk desk.now }
    ensures line { TookLine result draft.old line.now (view_as desk.now) draft.new }
    ensures awaited { IfOk result (AwaitsAll draft.new) }
{
    match draft {
        Some(compose) => {
            compose.refuse();
            compose.line(line, &view_as(desk))
        }
        None => Ok(Need::More),
    }
}

/// Takes a line of the draft that is open. If that refuses it the draft is as it was, and waits for no answer.
pub(crate) fn draft_line<H: Host>(
    alloc: Global,
    state: &mut SessionState,
    host: &mut H,
    line: &[u8],
) -> Result<Flow, RunError>
    requires { IsState state.old }
    ensures ran { Ran H.world host.old host.new
        (λ es. Goes (draft_play state.old line.now) es (in_play (next_of state.new) result)) }
    ensures state { IsState state.new }
    ensures refused { RefusesLine state.old line.now → state.new ≡ released state.old }
    ensures goes_on { RefusesLine state.old line.now → IfOk result (λ flow. flow ≡ Flow.Go) }
    ensures done { IfOk result EndsByLine }
    ensures cause { LineCaused (H.world.counts host.old) (H.world.counts host.new) result }
{
    match take_line(&state.desk, &mut state.draft, line) {
        Ok(need) => do_need(alloc, state, host, need),
        Err(error) => {
            let line = escape_fault(alloc, &error)?;
            go_on(say_text(state, host, &line))
        }
    }
}
