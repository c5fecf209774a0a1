// Lines as they are carried out: one of the input, and then those that wait.
ghost use Rattle.std.specs.Prelude.{◌≡◌, ◌≤◌, ◌<◌, ◌≢◌, List, ℕ, [], true, false, None, Ok, Err, IfErr, IfOk, OnErr, OnOk, length, take};
ghost use Rattle.std.specs.List.{list_all, list_any};
ghost use Rattle.mail_text.specs.Ascii.{is_blank};
ghost use Rattle.host_port.specs.Ran.{Ran};
ghost use Rattle.session_play.specs.Play.{Goes};
ghost use Rattle.session_play.specs.Steps.{refused};
ghost use Rattle.command_desk.specs.Desks.{IsDesk};
ghost use Rattle.command_desk.specs.Effects.{effect};
ghost use Rattle.read_commands.specs.Origins.{commanded, is_startup_ask};
ghost use Rattle.read_commands.specs.declared.origin.Origin.{Origin};
ghost use Rattle.session_state.specs.Pending.{capped, IsTaken};
ghost use Rattle.session_state.specs.Follows.{IsNext};
ghost use Rattle.session_state.specs.States.{IsState, IsSession, is_drafting, resumed, line_ended, settled, with_frames};
ghost use Rattle.session_state.specs.Bringing.{weight, StaysAlike, OnlyBrings};
ghost use Rattle.session_asks.specs.Asks.{brings, brings_lines};
ghost use Rattle.mailx_session.specs.Rounds.{line_play, command_play, typed_play, dropped_play, counted_play, outside_play, is_uncounted, waiting_play, WaitingGo, LineGoes};
ghost use Rattle.mailx_session.specs.Sessions.{carried_out, StaysAtEnd, DoesNothing};
ghost use Rattle.mailx_session.specs.Startup.{WaitsInStartup};
ghost use Rattle.mailx_session.specs.Drafting.{released};
ghost use Rattle.mailx_session.specs.Taking.{RefusesLine};
ghost use Rattle.session_state.specs.Answers.{next_of, in_play, LineCaused, EndsByLine, EndsFrom, GoesOn};

use crate::drafting::draft_line;
use host_port::Host;
use mail_text::{Memory, Text, is_blank};
use read_commands::{Desk, Effects, Origin, Refusal, Steps, is_defining, perform_line};
use session_asks::do_asks;
use session_state::{
    AskResult, Flow, RunError, SessionState, Taken, WaitingLine, cut_to, drop_lines, go_on, say,
    say_text,
};
use std::alloc::Global;

/// The most commands that one input line gives.
const COMMAND_LIMIT: u32 = 100_000;

// Makes the changes of a command once what it asked for was done. If memory runs out, the lines that it brought are
// gone: the first `depth` frames stay.
fn apply_effects(state: &mut SessionState, depth: usize, effects: Effects) -> Result<(), RunError>
    requires before { IsDesk state.old.desk }
    requires after { IsDesk (effect state.old.desk effects) }
    ensures ok { OnOk result (state.new ≡ settled state.old effects) }
    ensures err { IfErr result (λ e. e ≡ RunError.Memory) }
    ensures back { OnErr result (state.new ≡ with_frames state.old (take depth state.old.frames)) }
{
    match state.desk.apply(effects) {
        Ok(()) => Ok(()),
        Err(Memory) => {
            state.frames.cut(depth);
            Err(RunError::Memory)
        }
    }
}

/// Carries out a command's steps.
pub(crate) fn do_steps<H: Host>(
    alloc: Global,
    state: &mut SessionState,
    host: &mut H,
    steps: Steps,
) -> Result<Flow, RunError>
    requires state { IsState state.old }
    requires desk { IsDesk (effect state.old.desk steps.effects) }
    ensures ran { Ran H.world host.old host.new
        (λ es. Goes (carried_out state.old (Ok steps)) es (in_play (next_of state.new) result)) }
    ensures state { IsState state.new }
    ensures brings { OnlyBrings state.old state.new }
    ensures quiet { list_any brings steps.asks ≡ false → state.new.frames ≡ state.old.frames }
    ensures goes_on { list_all is_startup_ask steps.asks ≡ true → GoesOn result }
    ensures done { IfOk result EndsByLine }
    ensures end { IfOk result (StaysAtEnd state.old state.new) }
    ensures err { list_any brings steps.asks ≡ false → OnErr result (state.new ≡ state.old) }
    ensures cause { LineCaused (H.world.counts host.old) (H.world.counts host.new) result }
{
    let Steps { asks, effects } = steps;
    let depth = state.frames.depth();
    match do_asks(alloc, state, host, asks) {
        Ok(AskResult::On) => match apply_effects(state, depth, effects) {
            Ok(()) => Ok(Flow::Go),
            Err(error) => Err(error),
        },
        Ok(AskResult::Over) => Ok(Flow::Go),
        Ok(AskResult::Refused { line }) => go_on(say_text(state, host, &line)),
        Ok(AskResult::Ended(status)) => Ok(Flow::End(status)),
        Err(error) => Err(error),
    }
}

/// Carries out a line from somewhere, without its line feed. If it is refused nothing changes, and one that brings nothing
/// changes the desk only if the run goes on; beside desk, lines that wait and draft nothing changes at all.
pub(crate) fn carry_line<H: Host>(
    alloc: Global,
    state: &mut SessionState,
    host: &mut H,
    origin: Origin,
    line: &[u8],
) -> Result<Flow, RunError>
    requires { IsState state.old }
    ensures ran { Ran H.world host.old host.new
        (λ es. Goes (line_play origin state.old line.now) es (in_play (next_of state.new) result)) }
    ensures state { IsState state.new }
    ensures brings { OnlyBrings state.old state.new }
    ensures quiet { brings_lines (commanded origin state.old.desk line.now) ≡ false
        → state.new.frames ≡ state.old.frames }
    ensures refused { (fault : List ℕ) → commanded origin state.old.desk line.now ≡ Err fault → state.new ≡ state.old }
    ensures goes_on { (fault : List ℕ) → commanded origin state.old.desk line.now ≡ Err fault
        → IfOk result (λ flow. flow ≡ Flow.Go) }
    ensures done { EndsFrom origin result }
    ensures end { IfOk result (StaysAtEnd state.old state.new) }
    ensures err { brings_lines (commanded origin state.old.desk line.now) ≡ false
        → OnErr result (state.new ≡ state.old) }
    ensures cause { LineCaused (H.world.counts host.old) (H.world.counts host.new) result }
{
    match perform_line(alloc, origin, line, &state.desk) {
        Ok(steps) => do_steps(alloc, state, host, steps),
        Err(Refusal::Fault { line: fault }) => go_on(say_text(state, host, &fault)),
        Err(Refusal::Memory) => Err(RunError::Memory),
    }
}

// Carries out a line of the input that is a command, the first that is counted.
fn command_line<H: Host>(
    alloc: Global,
    state: &mut SessionState,
    host: &mut H,
    line: &[u8],
) -> Result<Flow, RunError>
    requires session { IsSession state.old }
    requires outside { is_drafting state.old ≡ false }
    ensures ran { Ran H.world host.old host.new
        (λ es. Goes (command_play state.old line.now) es (in_play (next_of state.new) result)) }
    ensures state { IsState state.new }
    ensures none_wait { brings_lines (commanded Origin.Input state.old.desk line.now) ≡ false → state.new.frames ≡ [] }
    ensures refused { (fault : List ℕ) → commanded Origin.Input state.old.desk line.now ≡ Err fault
        → line_ended state.new ≡ state.old }
    ensures goes_on { (fault : List ℕ) → commanded Origin.Input state.old.desk line.now ≡ Err fault
        → IfOk result (λ flow. flow ≡ Flow.Go) }
    ensures done { IfOk result EndsByLine }
    ensures end { IfOk result (StaysAtEnd state.old (line_ended state.new)) }
    ensures err { brings_lines (commanded Origin.Input state.old.desk line.now) ≡ false
        → OnErr result (line_ended state.new ≡ state.old) }
    ensures cause { LineCaused (H.world.counts host.old) (H.world.counts host.new) result }
{
    state.count = 1;
    carry_line(alloc, state, host, Origin::Input, line)
}

// Carries out a line of the input: one of the draft, if one is open, and else a command.
fn typed_line<H: Host>(
    alloc: Global,
    state: &mut SessionState,
    host: &mut H,
    line: &[u8],
) -> Result<Flow, RunError>
    requires { IsSession state.old }
    ensures ran { Ran H.world host.old host.new
        (λ es. Goes (typed_play state.old line.now) es (in_play (next_of state.new) result)) }
    ensures state { IsState state.new }
    ensures none_wait { is_drafting state.old ≡ false
        → brings_lines (commanded Origin.Input state.old.desk line.now) ≡ false → state.new.frames ≡ [] }
    ensures refused { is_drafting state.old ≡ false → (fault : List ℕ)
        → commanded Origin.Input state.old.desk line.now ≡ Err fault → line_ended state.new ≡ state.old }
    ensures goes_on { is_drafting state.old ≡ false → (fault : List ℕ)
        → commanded Origin.Input state.old.desk line.now ≡ Err fault → IfOk result (λ flow. flow ≡ Flow.Go) }
    ensures escape { RefusesLine state.old line.now → state.new ≡ released state.old }
    ensures escape_goes_on { RefusesLine state.old line.now → IfOk result (λ flow. flow ≡ Flow.Go) }
    ensures done { IfOk result EndsByLine }
    ensures end { is_drafting state.old ≡ false → IfOk result (StaysAtEnd state.old (line_ended state.new)) }
    ensures err { is_drafting state.old ≡ false
        → brings_lines (commanded Origin.Input state.old.desk line.now) ≡ false
        → OnErr result (line_ended state.new ≡ state.old) }
    ensures cause { LineCaused (H.world.counts host.old) (H.world.counts host.new) result }
{
    if state.draft.is_some() {
        draft_line(alloc, state, host, line)
    } else {
        command_line(alloc, state, host, line)
    }
}

// Prints that there are too many commands, and drops the lines that wait, with the conditions and the definition that
// they left open.
#[tactic(auto, using(session_asks::proofs::SourcingLemmas::weight_dropped))]
fn drop_waiting<H: Host>(
    alloc: Global,
    state: &mut SessionState,
    host: &mut H,
) -> Result<Flow, RunError>
    requires { IsState state.old }
    ensures ran { Ran H.world host.old host.new
        (λ es. Goes (dropped_play state.old) es (in_play (next_of state.new) result)) }
    ensures state { IsState state.new }
    ensures falls { weight state.new ≤ weight state.old }
    ensures alike { StaysAlike state.old.frames state.new.frames }
    ensures goes_on { GoesOn result }
    ensures cause { LineCaused (H.world.counts host.old) (H.world.counts host.new) result }
{
    match say(host, b"too many commands\n") {
        Ok(()) => {
            drop_lines(alloc, state);
            Ok(Flow::Go)
        }
        Err(error) => Err(error),
    }
}

// Carries out a line from elsewhere that isn't empty, if the input line may give one command more.
fn counted_line<H: Host>(
    alloc: Global,
    state: &mut SessionState,
    host: &mut H,
    line: &WaitingLine,
) -> Result<Flow, RunError>
    requires { IsState state.old }
    ensures ran { Ran H.world host.old host.new
        (λ es. Goes (counted_play state.old line.now) es (in_play (next_of state.new) result)) }
    ensures state { IsState state.new }
    ensures falls { weight state.new ≤ weight state.old }
    ensures alike { StaysAlike state.old.frames state.new.frames }
    ensures done { EndsFrom line.now.origin result }
    ensures cause { LineCaused (H.world.counts host.old) (H.world.counts host.new) result }
{
    if state.count < COMMAND_LIMIT {
        state.count += 1;
        carry_line(alloc, state, host, line.origin, line.text.bytes())
    } else {
        drop_waiting(alloc, state, host)
    }
}

// Whether a line has nothing but blanks.
fn is_empty(line: &[u8]) -> bool
    ensures { result ≡ list_all is_blank line.now }
{
    line.iter().all(|byte| is_blank(*byte))
}

// Carries out a line from elsewhere, while lines are carried out. An empty one is no command.
fn outside_line<H: Host>(
    alloc: Global,
    state: &mut SessionState,
    host: &mut H,
    line: &WaitingLine,
) -> Result<Flow, RunError>
    requires { IsState state.old }
    ensures ran { Ran H.world host.old host.new
        (λ es. Goes (outside_play state.old line.now) es (in_play (next_of state.new) result)) }
    ensures state { IsState state.new }
    ensures falls { weight state.new ≤ weight state.old }
    ensures alike { StaysAlike state.old.frames state.new.frames }
    ensures done { EndsFrom line.now.origin result }
    ensures cause { LineCaused (H.world.counts host.old) (H.world.counts host.new) result }
{
    if is_empty(line.text.bytes()) {
        Ok(Flow::Go)
    } else {
        counted_line(alloc, state, host, line)
    }
}

// Whether a line that is read here is no command: a definition is under way, or lines aren't carried out.
fn is_uncounted(desk: &Desk) -> bool
    ensures { result ≡ is_uncounted desk.now }
{
    is_defining(desk) || !desk.conditions.live()
}

// Carries out a line from elsewhere that is no command, so that it brings none.
fn uncounted_line<H: Host>(
    alloc: Global,
    state: &mut SessionState,
    host: &mut H,
    origin: Origin,
    line: &[u8],
) -> Result<Flow, RunError>
    requires state { IsState state.old }
    requires uncounted { is_uncounted state.old.desk ≡ true }
    ensures ran { Ran H.world host.old host.new
        (λ es. Goes (line_play origin state.old line.now) es (in_play (next_of state.new) result)) }
    ensures state { IsState state.new }
    ensures falls { weight state.new ≤ weight state.old }
    ensures alike { StaysAlike state.old.frames state.new.frames }
    ensures done { EndsFrom origin result }
    ensures cause { LineCaused (H.world.counts host.old) (H.world.counts host.new) result }
{
    carry_line(alloc, state, host, origin, line)
}

// Carries out a line from elsewhere, with the count of commands.
fn waiting_line<H: Host>(
    alloc: Global,
    state: &mut SessionState,
    host: &mut H,
    line: &WaitingLine,
) -> Result<Flow, RunError>
    requires { IsState state.old }
    ensures ran { Ran H.world host.old host.new
        (λ es. Goes (waiting_play state.old line.now) es (in_play (next_of state.new) result)) }
    ensures state { IsState state.new }
    ensures falls { weight state.new ≤ weight state.old }
    ensures alike { StaysAlike state.old.frames state.new.frames }
    ensures done { EndsFrom line.now.origin result }
    ensures cause { LineCaused (H.world.counts host.old) (H.world.counts host.new) result }
{
    if is_uncounted(&state.desk) {
        uncounted_line(alloc, state, host, line.origin, line.text.bytes())
    } else {
        outside_line(alloc, state, host, line)
    }
}

// Takes the next line that waits, and cuts the conditions and the definition that the frames left open which are
// closed then.
#[tactic(auto, using(session_state::proofs::RestLemmas::kept_valid))]
fn next_of_frames(alloc: Global, state: &mut SessionState) -> Result<Option<WaitingLine>, Memory>
    requires { IsState state.old }
    ensures taken { IfOk result (λ line.
        IsTaken line (capped (length state.old.desk.conditions) state.old.frames) state.new.frames) }
    ensures resumed { OnOk result (state.new ≡ resumed state.old state.new.frames) }
    ensures state { IsState state.new }
    ensures err { OnErr result (state.old.frames ≢ []) }
{
    state.frames.cap(state.desk.conditions.depth());
    match state.frames.next_line(alloc) {
        Ok(Taken { line, nested }) => {
            cut_to(&mut state.desk, nested);
            Ok(line)
        }
        Err(Memory) => Err(Memory),
    }
}

// Takes the line that is carried out next: none if a draft is open.
fn next_waiting(alloc: Global, state: &mut SessionState) -> Result<Option<WaitingLine>, Memory>
    requires { IsState state.old }
    ensures next { IfOk result (λ line. IsNext line state.old state.new) }
    ensures drafting { is_drafting state.old ≡ true → (result ≡ Ok None) × (state.new ≡ state.old) }
    ensures state { IsState state.new }
    ensures err { OnErr result (state.old.frames ≢ []) }
{
    if state.draft.is_some() {
        Ok(None)
    } else {
        next_of_frames(alloc, state)
    }
}

/// Carries out the lines that wait, until a draft is open.
pub(crate) fn waiting_lines<H: Host>(
    alloc: Global,
    state: &mut SessionState,
    host: &mut H,
) -> Result<Flow, RunError>
    requires { IsState state.old }
    ensures ran { Ran H.world host.old host.new
        (λ es. WaitingGo state.old es (in_play (next_of (line_ended state.new)) result)) }
    ensures state { IsState state.new }
    ensures nothing { state.old.frames ≡ [] → DoesNothing (line_ended state.old) (line_ended state.new) result }
    ensures drafting { is_drafting state.old ≡ true → DoesNothing state.old state.new result }
    ensures falls { is_drafting state.old ≡ false
        → OnOk result (is_drafting state.new ≡ true → weight state.new < weight state.old) }
    ensures goes_on { WaitsInStartup state.old → GoesOn result }
    ensures done { IfOk result EndsByLine }
    ensures cause { LineCaused (H.world.counts host.old) (H.world.counts host.new) result }
{
    'lines: loop {
        match next_waiting(alloc, state) {
            Ok(Some(line)) => match waiting_line(alloc, state, host, &line) {
                Ok(Flow::Go) => {}
                Ok(Flow::End(status)) => return Ok(Flow::End(status)),
                Err(error) => return Err(error),
            },
            Ok(None) => return Ok(Flow::Go),
            Err(Memory) => return Err(RunError::Memory),
        }
    }
}

/// Carries out a line of the input, and then the lines that it brings, until none waits or a draft is open.
pub(crate) fn input_line<H: Host>(
    alloc: Global,
    state: &mut SessionState,
    host: &mut H,
    line: &[u8],
) -> Result<Flow, RunError>
    requires { IsSession state.old }
    ensures ran { Ran H.world host.old host.new
        (λ es. LineGoes state.old line.now es (in_play (next_of (line_ended state.new)) result)) }
    ensures state { IsState state.new }
    ensures refused { is_drafting state.old ≡ false → (fault : List ℕ)
        → commanded Origin.Input state.old.desk line.now ≡ Err fault → line_ended state.new ≡ state.old }
    ensures goes_on { is_drafting state.old ≡ false → (fault : List ℕ)
        → commanded Origin.Input state.old.desk line.now ≡ Err fault → IfOk result (λ flow. flow ≡ Flow.Go) }
    ensures escape { RefusesLine state.old line.now → line_ended state.new ≡ released state.old }
    ensures escape_goes_on { RefusesLine state.old line.now → IfOk result (λ flow. flow ≡ Flow.Go) }
    ensures done { IfOk result EndsByLine }
    ensures end { is_drafting state.old ≡ false → brings_lines (commanded Origin.Input state.old.desk line.now) ≡ false
        → IfOk result (StaysAtEnd state.old (line_ended state.new)) }
    ensures err { is_drafting state.old ≡ false → brings_lines (commanded Origin.Input state.old.desk line.now) ≡ false
        → OnErr result (line_ended state.new ≡ state.old) }
    ensures cause { LineCaused (H.world.counts host.old) (H.world.counts host.new) result }
{
    match typed_line(alloc, state, host, line) {
        Ok(Flow::Go) => waiting_lines(alloc, state, host),
        Ok(Flow::End(status)) => Ok(Flow::End(status)),
        Err(error) => Err(error),
    }
}
