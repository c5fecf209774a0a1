// The end of the input: drafts end, and the folder is left.
ghost use Rattle.std.specs.Prelude.{◌≡◌, List, ℕ, false, IfOk};
ghost use Rattle.std.specs.List.{list_any};
ghost use Rattle.host_port.specs.Ran.{Ran};
ghost use Rattle.session_play.specs.Play.{Play, Ask, Ret, Say, Goes, bind};
ghost use Rattle.session_play.specs.Steps.{in_order};
ghost use Rattle.session_state.specs.declared.state.SessionState.{SessionState};
ghost use Rattle.session_state.specs.declared.status.Status.{Status};
ghost use Rattle.session_state.specs.States.{IsState, IsSession, is_drafting};
ghost use Rattle.session_state.specs.Statuses.{IsLineEnd};
ghost use Rattle.session_asks.specs.Asks.{asked};
ghost use Rattle.session_state.specs.Answers.{after_asks, in_play, LineCaused, EndsByAsk};
ghost use Rattle.session_asks.specs.Asks.{brings};
ghost use Rattle.mailx_session.specs.Leaving.{left_by, leaving, InputEnds};

use crate::finishing::finish;
use host_port::Host;
use mail_text::{Items, Text};
use read_commands::{Ask as Wanted, quit};
use session_asks::do_asks;
use session_state::{AskResult, Flow, RunError, SessionState, Status, say, status_of};
use std::alloc::Global;

// Prints the line by which the folder isn't left.
fn end_refused<H: Host>(host: &mut H, line: &Text) -> Result<Status, RunError>
    ensures ran { Ran H.world host.old host.new
        (λ es. Goes (Ask (Say line.now) (λ _. Ret Status.Refused)) es (in_play (λ (e : Status). e) result)) }
    ensures refused { IfOk result (λ e. e ≡ Status.Refused) }
    ensures cause { LineCaused (H.world.counts host.old) (H.world.counts host.new) result }
{
    match say(host, line.bytes()) {
        Ok(()) => Ok(Status::Refused),
        Err(error) => Err(error),
    }
}

// How the run ends, by what the answers to the asks of a quit left.
fn end_by<H: Host>(host: &mut H, state: &SessionState, asked: AskResult) -> Result<Status, RunError>
    requires { EndsByAsk asked }
    ensures ran { Ran H.world host.old host.new
        (λ es. Goes (left_by (after_asks state.now asked)) es (in_play (λ (e : Status). e) result)) }
    ensures end { IfOk result IsLineEnd }
    ensures cause { LineCaused (H.world.counts host.old) (H.world.counts host.new) result }
{
    match asked {
        AskResult::On | AskResult::Over => Ok(status_of(state.outcome)),
        AskResult::Refused { line } => end_refused(host, &line),
        AskResult::Ended(status) => Ok(status),
    }
}

// Does what a quit asks for, and ends the run.
fn leave_by<H: Host>(
    alloc: Global,
    state: &mut SessionState,
    host: &mut H,
    asks: Items<Wanted>,
) -> Result<Status, RunError>
    requires { IsState state.old }
    ensures ran { Ran H.world host.old host.new
        (λ es. Goes (bind (in_order asked state.old asks) left_by) es (in_play (λ (e : Status). e) result)) }
    ensures quiet { list_any brings asks ≡ false → state.new ≡ state.old }
    ensures end { IfOk result IsLineEnd }
    ensures cause { LineCaused (H.world.counts host.old) (H.world.counts host.new) result }
{
    let asked = do_asks(alloc, state, host, asks)?;
    end_by(host, state, asked)
}

// Leaves the folder at the end of the input, as `quit` does. If that is refused its line is printed, and the run ends
// so.
fn leave<H: Host>(alloc: Global, state: &mut SessionState, host: &mut H) -> Result<Status, RunError>
    requires { IsState state.old }
    ensures ran { Ran H.world host.old host.new
        (λ es. Goes (leaving state.old) es (in_play (λ (e : Status). e) result)) }
    ensures stays { state.new ≡ state.old }
    ensures end { IfOk result IsLineEnd }
    ensures cause { LineCaused (H.world.counts host.old) (H.world.counts host.new) result }
{
    let steps = quit(alloc, &state.desk)?;
    leave_by(alloc, state, host, steps.asks)
}

/// The end of the input: while a draft is open it ends, and the lines that wait are carried out; then the folder is
/// left, unless the run ended before.
pub(crate) fn end_input<H: Host>(
    alloc: Global,
    state: &mut SessionState,
    host: &mut H,
) -> Result<Status, RunError>
    requires { IsSession state.old }
    ensures ran { Ran H.world host.old host.new
        (λ es. InputEnds state.old es (in_play (λ (e : Status). e) result)) }
    ensures session { IsSession state.new }
    ensures stays { is_drafting state.old ≡ false → state.new ≡ state.old }
    ensures end { IfOk result IsLineEnd }
    ensures cause { LineCaused (H.world.counts host.old) (H.world.counts host.new) result }
{
    match finish(alloc, state, host) {
        Ok(Flow::Go) => leave(alloc, state, host),
        Ok(Flow::End(status)) => Ok(status),
        Err(error) => Err(error),
    }
}
