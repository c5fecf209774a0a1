// A session by lines.
ghost use Rattle.std.specs.Prelude.{◌≡◌, ◌<◌, false, Some, None, IfOk, IfNone, IfSome, IsSome, unwrap_or, [], codes};
ghost use Rattle.mailx_vars.specs.Settings.{value_of};
ghost use Rattle.host_port.specs.Ran.{Ran};
ghost use Rattle.rc_conditionals.specs.Turns.{is_send};
ghost use Rattle.session_play.specs.Input.{Input, left, no_input};
ghost use Rattle.session_play.specs.Play.{Play, Goes, Loop, Caused};
ghost use Rattle.mailx_session.specs.Rounds.{LineGoes};
ghost use Rattle.session_state.specs.Answers.{stop_of};
ghost use Rattle.session_state.specs.States.{next_waiting};
ghost use Rattle.session_state.specs.Statuses.{IsEnd, IsLineEnd};
ghost use Rattle.mailx_top.specs.declared.environment.Environment.{Environment};
ghost use Rattle.mailx_top.specs.Meaning.{round, Reading, AsksNext, behind_input, is_over, next_state, at_prompt, prompted, after_line, LeadsTo, LeadsAfterPrompt};

use host_port::Host;
use mailx_session::{Flow, RunError, Session, Status};
use rc_conditionals::Mode;
use read_commands::is_defining;
use session_play::{Reader, Stop, say};
use std::alloc::Global;

// The value of `prompt`; one that is unset counts as empty.
fn prompt(session: &Session) -> &[u8]
    ensures { result.now ≡ unwrap_or (value_of session.now.desk.vars (codes "prompt")) [] }
{
    match session.desk().vars.get(b"prompt") {
        Some(prompt) => prompt,
        None => b"",
    }
}

// Whether the prompt is printed: on a terminal, unless a draft is open or a definition is under way.
#[tactic(auto, using(crate::proofs::WaitingLemmas::prompt_at_rest))]
fn is_prompted(session: &Session) -> bool
    ensures { result ≡ at_prompt session.now }
{
    session.state().desk.terminal && !session.drafting() && !is_defining(session.desk())
}

// Prints the prompt, if it is to be printed.
fn say_prompt<H: Host>(host: &mut H, session: &Session) -> Result<(), Stop>
    ensures ran { Ran H.world host.old host.new
        (λ es. Goes (prompted (at_prompt session.now) session.now.desk) es result) }
    ensures cause { Caused (H.world.counts host.old) (H.world.counts host.new) result }
{
    if is_prompted(session) {
        say(host, prompt(session))
    } else {
        Ok(())
    }
}

/// The cut that an error is.
pub(crate) fn stop_of(error: &RunError) -> Stop
    ensures { result ≡ stop_of error.now }
{
    match error {
        RunError::Output => Stop::Output,
        RunError::Disk => Stop::Disk,
        RunError::Memory => Stop::Memory,
    }
}

// Takes a line.
fn step<H: Host>(host: &mut H, session: &mut Session, line: &[u8]) -> Result<Option<Status>, Stop>
    ensures ran { Ran H.world host.old host.new
        (λ es. LineGoes session.old line.now es (after_line session.new result)) }
    ensures cause { Caused (H.world.counts host.old) (H.world.counts host.new) result }
    ensures line_end { IfOk result (λ end. IfSome end IsLineEnd) }
{
    match session.step(line, host) {
        Ok(Flow::Go) => Ok(None),
        Ok(Flow::End(status)) => Ok(Some(status)),
        Err(error) => Err(stop_of(&error)),
    }
}

// The end of the input: drafts end, and then the folder is left.
fn end_of_input<H: Host>(host: &mut H, session: &mut Session) -> Result<Option<Status>, Stop>
    ensures ran { (env : Environment) → (j : Input) → Ran H.world host.old host.new
        (λ es. LeadsTo env (behind_input session.old j) es (next_state session.new j result)) }
    ensures cause { Caused (H.world.counts host.old) (H.world.counts host.new) result }
    ensures ended { IfOk result IsSome }
    ensures line_end { IfOk result (λ end. IfSome end IsLineEnd) }
{
    match session.end(host) {
        Ok(status) => Ok(Some(status)),
        Err(error) => Err(stop_of(&error)),
    }
}

// Takes the next line, or the end of input, once the prompt was printed.
fn next_line<H: Host>(
    alloc: Global,
    host: &mut H,
    reader: &mut Reader,
    session: &mut Session,
) -> Result<Option<Status>, Stop>
    requires { AsksNext session.old }
    ensures ran { (env : Environment) → Ran H.world host.old host.new
        (λ es. LeadsAfterPrompt env session.old reader.old es (next_state session.new reader.new result)) }
    ensures cause { Caused (H.world.counts host.old) (H.world.counts host.new) result }
    ensures progress { IfOk result (λ end. IfNone end (left reader.new < left reader.old)) }
    ensures plain { IfOk result (λ end. IfSome end IsEnd) }
{
    match reader.line(alloc, host) {
        Ok(Some(line)) => step(host, session, line.bytes()),
        Ok(None) => end_of_input(host, session),
        Err(cause) => Err(cause),
    }
}

// Prints the prompt, if it is to be printed, and takes the next line.
fn one_line<H: Host>(
    alloc: Global,
    host: &mut H,
    reader: &mut Reader,
    session: &mut Session,
) -> Result<Option<Status>, Stop>
    requires { AsksNext session.old }
    ensures ran { (env : Environment) → Ran H.world host.old host.new
        (λ es. LeadsTo env (Reading session.old reader.old) es (next_state session.new reader.new result)) }
    ensures cause { Caused (H.world.counts host.old) (H.world.counts host.new) result }
    ensures progress { IfOk result (λ end. IfNone end (left reader.new < left reader.old)) }
    ensures plain { IfOk result (λ end. IfSome end IsEnd) }
{
    match say_prompt(host, session) {
        Ok(()) => next_line(alloc, host, reader, session),
        Err(cause) => Err(cause),
    }
}

// Whether a run of this mode sends a message.
fn is_send(mode: Mode) -> bool
    ensures { result ≡ is_send mode }
{
    match mode {
        Mode::Send => true,
        Mode::Receive => false,
    }
}

// Whether the run sends and its draft is over.
#[tactic(auto, using(crate::proofs::WaitingLemmas::none_waits))]
fn is_over(session: &Session) -> bool
    ensures over { result ≡ is_over session.now }
    ensures idle { next_waiting session.now ≡ None }
{
    is_send(session.state().desk.mode) && !session.drafting()
}

// Takes the next line, or ends the run if it is over.
fn line_or_end<H: Host>(
    alloc: Global,
    host: &mut H,
    reader: &mut Reader,
    session: &mut Session,
) -> Result<Option<Status>, Stop>
    ensures ran { (env : Environment) → Ran H.world host.old host.new
        (λ es. LeadsTo env (Reading session.old reader.old) es (next_state session.new reader.new result)) }
    ensures cause { Caused (H.world.counts host.old) (H.world.counts host.new) result }
    ensures progress { IfOk result (λ end. IfNone end (left reader.new < left reader.old)) }
    ensures plain { IfOk result (λ end. IfSome end IsEnd) }
{
    if is_over(session) {
        end_of_input(host, session)
    } else {
        one_line(alloc, host, reader, session)
    }
}

/// Lines from the input, to its end, to the line that ends the run, or to the end of the draft in a run that sends.
pub(crate) fn lines<H: Host>(
    alloc: Global,
    host: &mut H,
    session: &mut Session,
) -> Result<Status, Stop>
    ensures ran { (env : Environment) → Ran H.world host.old host.new
        (λ es. Loop (round env) (Reading session.old no_input) es result) }
    ensures cause { Caused (H.world.counts host.old) (H.world.counts host.new) result }
    ensures plain { IfOk result IsEnd }
{
    let mut reader = Reader::new(alloc);
    'lines: loop {
        if let Some(end) = line_or_end(alloc, host, &mut reader, session)? {
            return Ok(end);
        }
    }
}
