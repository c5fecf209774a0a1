// Commands that the shell runs.
ghost use Rattle.std.specs.Prelude.{◌≡◌, IfOk};
ghost use Rattle.host_port.specs.Ran.{Ran};
ghost use Rattle.session_play.specs.Play.{Ask, Ret, Say, Goes};
ghost use Rattle.compose_tilde.specs.Answering.{said_of};
ghost use Rattle.session_state.specs.declared.state.SessionState.{SessionState};
ghost use Rattle.session_asks.specs.Running.{after_run, by_shell, run_asked, shell_args};
ghost use Rattle.session_state.specs.Answers.{after_asks, in_play, LineCaused, EndsByAsk};

use compose_tilde::said_of;
use host_port::{ChildAnswer, Host};
use mail_text::{Items, Memory, Text};
use read_commands::Desk;
use session_play::run_child;
use session_state::{AskResult, RunError, SessionState, refused, say_line};
use std::alloc::Global;

// The arguments with which the shell runs a command.
fn shell_args(alloc: Global, command: &[u8]) -> Result<Items<Text>, Memory>
    ensures { IfOk result (λ args. args ≡ shell_args command.now) }
{
    let mut args = Items::new(alloc);
    args.push(Text::copy(alloc, b"-c")?)?;
    args.push(Text::copy(alloc, command)?)?;
    Ok(args)
}

/// Runs a command by the shell of the places, with this input; none if it could not be run.
pub fn by_shell<H: Host>(
    alloc: Global,
    desk: &Desk,
    host: &mut H,
    command: &[u8],
    input: &[u8],
) -> Result<Option<ChildAnswer>, RunError>
    ensures ran { Ran H.world host.old host.new
        (λ es. Goes (Ask (by_shell desk.now command.now input.now) Ret) es (in_play (λ a. a) result)) }
    ensures cause { LineCaused (H.world.counts host.old) (H.world.counts host.new) result }
{
    let args = shell_args(alloc, command)?;
    match run_child(alloc, host, desk.places.shell.bytes(), args.items(), input) {
        Ok(answer) => Ok(answer),
        Err(_) => Err(RunError::Memory),
    }
}

// Prints what there is to print of a command that was run.
fn say_of<H: Host>(host: &mut H, child: ChildAnswer) -> Result<AskResult, RunError>
    ensures ran { (s : SessionState) → Ran H.world host.old host.new
        (λ es. Goes (Ask (Say (said_of child)) (λ _. Ret (after_asks s AskResult.On))) es (in_play (after_asks s) result)) }
    ensures done { IfOk result EndsByAsk }
    ensures cause { LineCaused (H.world.counts host.old) (H.world.counts host.new) result }
{
    let bytes = said_of(child)?;
    say_line(host, &bytes)
}

// What follows a command that was asked for.
fn after_run<H: Host>(
    alloc: Global,
    host: &mut H,
    answer: Option<ChildAnswer>,
) -> Result<AskResult, RunError>
    ensures ran { (s : SessionState) → Ran H.world host.old host.new
        (λ es. Goes (after_run s answer) es (in_play (after_asks s) result)) }
    ensures done { IfOk result EndsByAsk }
    ensures cause { LineCaused (H.world.counts host.old) (H.world.counts host.new) result }
{
    match answer {
        Some(child) => say_of(host, child),
        None => Ok(refused(alloc, b"command could not be run", b"")?),
    }
}

/// Runs a command that is asked for, and prints what there is to print of it. One that could not be run refuses what
/// follows.
pub(crate) fn run_asked<H: Host>(
    alloc: Global,
    state: &SessionState,
    host: &mut H,
    command: &[u8],
    input: &[u8],
) -> Result<AskResult, RunError>
    ensures ran { Ran H.world host.old host.new
        (λ es. Goes (run_asked state.now command.now input.now) es (in_play (after_asks state.now) result)) }
    ensures done { IfOk result EndsByAsk }
    ensures cause { LineCaused (H.world.counts host.old) (H.world.counts host.new) result }
{
    match by_shell(alloc, &state.desk, host, command, input) {
        Ok(answer) => after_run(alloc, host, answer),
        Err(error) => Err(error),
    }
}
