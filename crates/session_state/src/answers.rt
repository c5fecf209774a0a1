// What the answers to a command's asks leave, and what is printed.
ghost use Rattle.std.specs.Prelude.{◌≡◌, IfErr, IfOk};
ghost use Rattle.host_port.specs.Calls.{Counts};
ghost use Rattle.host_port.specs.Ran.{Ran};
ghost use Rattle.session_play.specs.Play.{Ask, Ret, Say, Go, Goes};
ghost use Rattle.session_play.specs.Steps.{refused};
ghost use Rattle.session_state.specs.declared.state.SessionState.{SessionState};
ghost use Rattle.session_state.specs.declared.status.Status.{Status};
ghost use Rattle.session_state.specs.Answers.{after_asks, in_play, next_of, LineCaused, EndsByAsk, EndsByLine, GoesOn, IsNoDiskFault, AsksGoOn};

use crate::{Flow, RunError, SessionState, Status};
use host_port::Host;
use mail_text::Text;

/// What the answers to a command's asks leave.
#[derive(Drop)]
pub enum AskResult {
    /// All was done.
    On,
    /// The command is over: nothing that follows is done.
    Over,
    /// The command is refused by this line.
    Refused { line: Text },
    /// The run ends.
    Ended(Status),
}

/// Prints bytes.
pub fn say<H: Host>(host: &mut H, bytes: &[u8]) -> Result<(), RunError>
    ensures ran { Ran H.world host.old host.new
        (λ es. Goes (Ask (Say bytes.now) Ret) es (in_play (λ u. u) result)) }
    ensures cause { LineCaused (H.world.counts host.old) (H.world.counts host.new) result }
    ensures no_disk { IfErr result IsNoDiskFault }
{
    match session_play::say(host, bytes) {
        Ok(()) => Ok(()),
        Err(_) => Err(RunError::Output),
    }
}

/// Prints bytes that a command asks for.
pub fn say_line<H: Host>(host: &mut H, bytes: &Text) -> Result<AskResult, RunError>
    ensures ran { (s : SessionState) → Ran H.world host.old host.new
        (λ es. Goes (Ask (Say bytes.now) (λ _. Ret (after_asks s AskResult.On))) es (in_play (after_asks s) result)) }
    ensures done { IfOk result EndsByAsk }
    ensures goes_on { AsksGoOn result }
    ensures cause { LineCaused (H.world.counts host.old) (H.world.counts host.new) result }
{
    match say(host, bytes.bytes()) {
        Ok(()) => Ok(AskResult::On),
        Err(error) => Err(error),
    }
}

/// Prints a text with which the session goes on.
pub fn say_text<H: Host>(state: &SessionState, host: &mut H, text: &Text) -> Result<(), RunError>
    ensures ran { Ran H.world host.old host.new
        (λ es. Goes (refused {R = Status} state.now text.now) es (in_play (λ u. Go state.now) result)) }
    ensures no_disk { IfErr result IsNoDiskFault }
    ensures cause { LineCaused (H.world.counts host.old) (H.world.counts host.new) result }
{
    say(host, text.bytes())
}

/// After what was done the session goes on, unless that cut the run off.
pub fn go_on(did: Result<(), RunError>) -> Result<Flow, RunError>
    ensures means { (s : SessionState) → in_play (next_of s) result ≡ in_play (λ u. Go s) did }
    ensures go { IfOk result (λ flow. flow ≡ Flow.Go) }
    ensures goes_on { IfErr did IsNoDiskFault → GoesOn result }
    ensures done { IfOk result EndsByLine }
    ensures cause { (old : Counts) → (new : Counts) → LineCaused old new did → LineCaused old new result }
{
    match did {
        Ok(()) => Ok(Flow::Go),
        Err(error) => Err(error),
    }
}
