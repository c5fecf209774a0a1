// What a command asks for, in order, up to an answer that refuses what follows or ends the run.
ghost use Rattle.std.specs.Prelude.{◌≡◌, true, false, IfOk};
ghost use Rattle.std.specs.List.{list_all, list_any};
ghost use Rattle.host_port.specs.Ran.{Ran};
ghost use Rattle.session_play.specs.Play.{Say, Goes};
ghost use Rattle.session_play.specs.Steps.{in_order};
ghost use Rattle.read_commands.specs.Origins.{is_startup_ask};
ghost use Rattle.session_state.specs.declared.state.SessionState.{SessionState};
ghost use Rattle.session_state.specs.States.{IsState};
ghost use Rattle.session_state.specs.Bringing.{OnlyBrings};
ghost use Rattle.session_asks.specs.Asks.{asked, all_done, brings, is_on, StaysUnlessOn, KeepsDesk};
ghost use Rattle.session_state.specs.Answers.{after_asks, in_play, LineCaused, EndsByAsk, AsksGoOn};

use crate::beginning::begin_recorded;
use crate::calling::call;
use crate::editing::edit;
use crate::gathering::gather;
use crate::renewing::add_new_mail;
use crate::running::run_asked;
use crate::sourcing::source;
use crate::switching::switch_folder;
use crate::viewing::view;
use host_port::Host;
use mail_text::Items;
use read_commands::Ask as Wanted;
use session_state::{AskResult, RunError, SessionState, Status, commit, say_line, status_of};
use std::alloc::Global;

// Does one thing that is asked for. The state stays, but for the lines, the folder and the draft that this brings.
#[tactic(auto, using(crate::proofs::SourcingLemmas::brings_none))]
fn do_ask<H: Host>(
    alloc: Global,
    state: &mut SessionState,
    host: &mut H,
    ask: Wanted,
) -> Result<AskResult, RunError>
    requires { IsState state.old }
    ensures ran { Ran H.world host.old host.new
        (λ es. Goes (asked state.old ask) es (in_play (after_asks state.new) result)) }
    ensures brings { OnlyBrings state.old state.new }
    ensures valid { IsState state.new }
    ensures desk { KeepsDesk state.old state.new result }
    ensures quiet { brings ask ≡ false → state.new ≡ state.old }
    ensures goes_on { is_startup_ask ask ≡ true → AsksGoOn result }
    ensures done { IfOk result EndsByAsk }
    ensures cause { LineCaused (H.world.counts host.old) (H.world.counts host.new) result }
{
    match ask {
        Wanted::Say(bytes) => say_line(host, &bytes),
        Wanted::Commit { changes } => commit(alloc, state, host, changes),
        Wanted::Gather { name } => gather(alloc, state, name.bytes()),
        Wanted::Source { name } => source(alloc, state, host, name.bytes()),
        Wanted::Lines { text } => call(alloc, state, &text),
        Wanted::Open {
            name,
            changes,
            reply,
        } => switch_folder(alloc, state, host, name.bytes(), changes, &reply),
        Wanted::Newmail => add_new_mail(alloc, state, host),
        Wanted::View { kind } => view(alloc, state, kind),
        Wanted::Draft {
            draft,
            file,
            current,
        } => begin_recorded(alloc, state, host, &draft, &file, current),
        Wanted::Child { command, input } => {
            run_asked(alloc, state, host, command.bytes(), input.bytes())
        }
        Wanted::Edit { number, command } => edit(alloc, state, host, number, command.bytes()),
        Wanted::Exit => Ok(AskResult::Ended(status_of(state.outcome))),
    }
}

/// Whether all was done, and the command isn't over.
pub(crate) fn all_done(asked: &Result<AskResult, RunError>) -> bool
    ensures { result ≡ all_done asked.now }
{
    matches!(asked, Ok(AskResult::On))
}

// Does what is asked for, in order, up to an answer with which the command is over, or that refuses what follows or
// ends the run.
fn ask_all<H: Host>(
    alloc: Global,
    state: &mut SessionState,
    host: &mut H,
    asks: Items<Wanted>,
) -> Result<AskResult, RunError>
    requires { IsState state.old }
    ensures ran { Ran H.world host.old host.new
        (λ es. Goes (in_order asked state.old asks) es (in_play (after_asks state.new) result)) }
    ensures brings { OnlyBrings state.old state.new }
    ensures valid { IsState state.new }
    ensures desk { KeepsDesk state.old state.new result }
    ensures quiet { list_any brings asks ≡ false → state.new ≡ state.old }
    ensures goes_on { list_all is_startup_ask asks ≡ true → AsksGoOn result }
    ensures done { IfOk result EndsByAsk }
    ensures cause { LineCaused (H.world.counts host.old) (H.world.counts host.new) result }
{
    for ask in asks.into_vec() {
        let asked = do_ask(alloc, state, host, ask);
        if !all_done(&asked) {
            return asked;
        }
    }
    Ok(AskResult::On)
}

// Whether all was done, to the last or to one with which the command is over.
fn is_on(asked: &Result<AskResult, RunError>) -> bool
    ensures { result ≡ is_on asked.now }
{
    matches!(asked, Ok(AskResult::On) | Ok(AskResult::Over))
}

/// Does what is asked for, in order, up to an answer with which the command is over, or that refuses what follows or
/// ends the run; in the latter two cases nothing is brought.
pub fn do_asks<H: Host>(
    alloc: Global,
    state: &mut SessionState,
    host: &mut H,
    asks: Items<Wanted>,
) -> Result<AskResult, RunError>
    requires { IsState state.old }
    ensures ran { Ran H.world host.old host.new
        (λ es. Goes (in_order asked state.old asks) es (in_play (after_asks state.new) result)) }
    ensures brings { OnlyBrings state.old state.new }
    ensures valid { IsState state.new }
    ensures desk { KeepsDesk state.old state.new result }
    ensures quiet { list_any brings asks ≡ false → state.new ≡ state.old }
    ensures goes_on { list_all is_startup_ask asks ≡ true → AsksGoOn result }
    ensures stays { StaysUnlessOn state.old state.new result }
    ensures done { IfOk result EndsByAsk }
    ensures cause { LineCaused (H.world.counts host.old) (H.world.counts host.new) result }
{
    let depth = state.frames.depth();
    let asked = ask_all(alloc, state, host, asks);
    if !is_on(&asked) {
        state.frames.cut(depth);
    }
    asked
}
