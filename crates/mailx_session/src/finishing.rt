// The end of the input, if a draft is open.
ghost use Rattle.std.specs.Prelude.{◌≡◌, ◌<◌, false, true, Ok, IfOk, OnOk};
ghost use Rattle.host_port.specs.Ran.{Ran};
ghost use Rattle.session_state.specs.Bringing.{weight};
ghost use Rattle.mailx_session.specs.Rounds.{DraftEnds, FinishGo};
ghost use Rattle.session_state.specs.States.{IsState, IsSession, is_drafting, line_ended};
ghost use Rattle.session_state.specs.Answers.{in_play, next_of, LineCaused, EndsByLine};

use crate::lines::waiting_lines;
use draft_sending::end_draft;
use host_port::Host;
use session_state::{Flow, RunError, SessionState, end_line};
use std::alloc::Global;

// Ends the draft, and carries out the lines that wait, until another one is open, unless the run ends with it.
fn end_and_go_on<H: Host>(
    alloc: Global,
    state: &mut SessionState,
    host: &mut H,
) -> Result<Flow, RunError>
    requires { IsState state.old }
    ensures ran { Ran H.world host.old host.new
        (λ es. DraftEnds state.old es (in_play (next_of (line_ended state.new)) result)) }
    ensures state { IsState state.new }
    ensures falls { OnOk result
        (is_drafting (line_ended state.new) ≡ true → weight (line_ended state.new) < weight state.old) }
    ensures done { IfOk result EndsByLine }
    ensures cause { LineCaused (H.world.counts host.old) (H.world.counts host.new) result }
{
    match end_draft(alloc, state, host) {
        Ok(Flow::Go) => waiting_lines(alloc, state, host),
        Ok(Flow::End(status)) => Ok(Flow::End(status)),
        Err(error) => Err(error),
    }
}

// Ends the draft and carries out the lines that wait. The state is at rest then, unless another draft is open.
fn end_one<H: Host>(alloc: Global, state: &mut SessionState, host: &mut H) -> Result<Flow, RunError>
    requires { IsSession state.old }
    ensures ran { Ran H.world host.old host.new
        (λ es. DraftEnds state.old es (in_play (next_of state.new) result)) }
    ensures session { IsSession state.new }
    ensures falls { OnOk result (is_drafting state.new ≡ true → weight state.new < weight state.old) }
    ensures done { IfOk result EndsByLine }
    ensures cause { LineCaused (H.world.counts host.old) (H.world.counts host.new) result }
{
    let went = end_and_go_on(alloc, state, host);
    end_line(alloc, state);
    went
}

/// Ends the draft that is open, and carries out the lines that wait, until none waits and no draft is open.
pub(crate) fn finish<H: Host>(
    alloc: Global,
    state: &mut SessionState,
    host: &mut H,
) -> Result<Flow, RunError>
    requires { IsSession state.old }
    ensures ran { Ran H.world host.old host.new
        (λ es. FinishGo state.old es (in_play (next_of state.new) result)) }
    ensures over { result ≡ Ok Flow.Go → is_drafting state.new ≡ false }
    ensures stays { is_drafting state.old ≡ false → state.new ≡ state.old }
    ensures session { IsSession state.new }
    ensures done { IfOk result EndsByLine }
    ensures cause { LineCaused (H.world.counts host.old) (H.world.counts host.new) result }
{
    'drafts: loop {
        if state.draft.is_none() {
            return Ok(Flow::Go);
        }
        match end_one(alloc, state, host) {
            Ok(Flow::Go) => {}
            Ok(Flow::End(status)) => return Ok(Flow::End(status)),
            Err(error) => return Err(error),
        }
    }
}
