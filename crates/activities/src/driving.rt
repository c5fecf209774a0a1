// The driver of activities: the one place where they ask the outside.
ghost use Rattle.std.specs.Prelude.{◌≡◌, true, None, IfErr, IfOk};
ghost use Rattle.host_port.specs.Ran.{Ran};
ghost use Rattle.session_play.specs.Play.{Goes};
ghost use Rattle.mailx_vars.specs.Names.{is_short_name};
ghost use Rattle.sender_port.specs.Names.{names_fault};
ghost use Rattle.session_state.specs.States.{IsState};
ghost use Rattle.session_state.specs.Answers.{in_play, next_of, IsNoDiskFault, LineCaused};
ghost use Rattle.activities.specs.Acting.{asked_of, reply_of, left_of, sent_as, shell_args, IsAllowed, IsAnswerTo, IsReady, NeverCommits};

use crate::{Activity, Answer, Call, Turn};
use folder_change::Change;
use host_port::Host;
use mail_text::{Items, Memory, Text};
use sender_port::{SendError, send};
use session_play::{now, run_child, run_editor, try_load};
use session_state::{Flow, RunError, SessionState, commit, edit_file, say};
use std::alloc::Global;

// What the sender is answered; running out of memory cuts the run off.
fn sent_as(sent: Result<Text, SendError>) -> Result<Answer, RunError>
    ensures { result ≡ sent_as sent }
{
    match sent {
        Err(SendError::Memory) => Err(RunError::Memory),
        sent => Ok(Answer::Sent(sent)),
    }
}

// Prints a text.
fn print<H: Host>(state: &SessionState, host: &mut H, bytes: &Text) -> Result<Answer, RunError>
    ensures ran { Ran H.world host.old host.new
        (λ es. Goes (asked_of state.now (Call.Say bytes.now)) es (in_play (reply_of state.now) result)) }
    ensures answer { IsAnswerTo (Call.Say bytes.now) result }
    ensures cause { LineCaused (H.world.counts host.old) (H.world.counts host.new) result }
{
    match say(host, bytes.bytes()) {
        Ok(()) => Ok(Answer::Said),
        Err(error) => Err(error),
    }
}

// Commits changes.
fn save<H: Host>(
    alloc: Global,
    state: &SessionState,
    host: &mut H,
    changes: Items<Change>,
) -> Result<Answer, RunError>
    requires { IsState state.now }
    ensures ran { Ran H.world host.old host.new
        (λ es. Goes (asked_of state.now (Call.Commit changes)) es (in_play (reply_of state.now) result)) }
    ensures answer { IsAnswerTo (Call.Commit changes) result }
    ensures cause { LineCaused (H.world.counts host.old) (H.world.counts host.new) result }
{
    match commit(alloc, state, host, changes) {
        Ok(asked) => Ok(Answer::Committed(asked)),
        Err(error) => Err(error),
    }
}

// Asks for the moment.
fn ask_time<H: Host>(alloc: Global, state: &SessionState, host: &mut H) -> Result<Answer, RunError>
    ensures ran { Ran H.world host.old host.new
        (λ es. Goes (asked_of state.now Call.Now) es (in_play (reply_of state.now) result)) }
    ensures answer { IsAnswerTo Call.Now result }
    ensures cause { LineCaused (H.world.counts host.old) (H.world.counts host.new) result }
{
    match now(alloc, host, state.desk.places.tz.bytes()) {
        Ok(moment) => Ok(Answer::Time(moment)),
        Err(_) => Err(RunError::Memory),
    }
}

// Gives a message to the sender.
fn submit<H: Host>(
    alloc: Global,
    state: &SessionState,
    host: &mut H,
    names: &[Text],
    message: &Text,
) -> Result<Answer, RunError>
    requires { names_fault names.now ≡ None }
    ensures ran { Ran H.world host.old host.new
        (λ es. Goes (asked_of state.now (Call.Send names.now message.now)) es (in_play (reply_of state.now) result)) }
    ensures answer { IsAnswerTo (Call.Send names.now message.now) result }
    ensures cause { LineCaused (H.world.counts host.old) (H.world.counts host.new) result }
{
    sent_as(send(alloc, &state.desk.vars, names, message.bytes(), host))
}

// Loads a file.
fn load<H: Host>(
    alloc: Global,
    state: &SessionState,
    host: &mut H,
    file: &Text,
) -> Result<Answer, RunError>
    requires { is_short_name file.now ≡ true }
    ensures ran { Ran H.world host.old host.new
        (λ es. Goes (asked_of state.now (Call.Load file.now)) es (in_play (reply_of state.now) result)) }
    ensures answer { IsAnswerTo (Call.Load file.now) result }
    ensures cause { LineCaused (H.world.counts host.old) (H.world.counts host.new) result }
{
    match try_load(alloc, host, file.bytes()) {
        Ok(found) => Ok(Answer::Loaded(found)),
        Err(_) => Err(RunError::Memory),
    }
}

// The arguments with which the shell runs a command.
fn shell_args(alloc: Global, command: &Text) -> Result<Items<Text>, Memory>
    ensures { IfOk result (λ args. args ≡ shell_args command.now) }
{
    let mut args = Items::new(alloc);
    args.push(Text::copy(alloc, b"-c")?)?;
    args.push(Text::copy(alloc, command.bytes())?)?;
    Ok(args)
}

// Has the shell of the places run a command.
fn run<H: Host>(
    alloc: Global,
    state: &SessionState,
    host: &mut H,
    command: &Text,
    input: &Text,
) -> Result<Answer, RunError>
    ensures ran { Ran H.world host.old host.new
        (λ es. Goes (asked_of state.now (Call.Shell command.now input.now)) es (in_play (reply_of state.now) result)) }
    ensures answer { IsAnswerTo (Call.Shell command.now input.now) result }
    ensures cause { LineCaused (H.world.counts host.old) (H.world.counts host.new) result }
{
    let args = shell_args(alloc, command)?;
    let shell = state.desk.places.shell.bytes();
    match run_child(alloc, host, shell, args.items(), input.bytes()) {
        Ok(answer) => Ok(Answer::Ran(answer)),
        Err(_) => Err(RunError::Memory),
    }
}

// Has an editor edit a text, in the file of the session's own.
fn edit<H: Host>(
    alloc: Global,
    state: &SessionState,
    host: &mut H,
    command: &Text,
    text: &Text,
) -> Result<Answer, RunError>
    ensures ran { Ran H.world host.old host.new
        (λ es. Goes (asked_of state.now (Call.Edit command.now text.now)) es (in_play (reply_of state.now) result)) }
    ensures answer { IsAnswerTo (Call.Edit command.now text.now) result }
    ensures cause { LineCaused (H.world.counts host.old) (H.world.counts host.new) result }
{
    let name = edit_file(alloc, state.actor.bytes(), state.token)?;
    let shell = state.desk.places.shell.bytes();
    match run_editor(
        alloc,
        host,
        name.bytes(),
        shell,
        command.bytes(),
        text.bytes(),
    ) {
        Ok(answer) => Ok(Answer::Edited(answer)),
        Err(_) => Err(RunError::Memory),
    }
}

// Asks the outside.
fn perform<H: Host>(
    alloc: Global,
    state: &SessionState,
    host: &mut H,
    call: Call,
) -> Result<Answer, RunError>
    requires state { IsState state.now }
    requires allowed { IsAllowed call }
    ensures ran { Ran H.world host.old host.new
        (λ es. Goes (asked_of state.now call) es (in_play (reply_of state.now) result)) }
    ensures answer { IsAnswerTo call result }
    ensures cause { LineCaused (H.world.counts host.old) (H.world.counts host.new) result }
{
    match call {
        Call::Say(bytes) => print(state, host, &bytes),
        Call::Commit(changes) => save(alloc, state, host, changes),
        Call::Send { names, message } => submit(alloc, state, host, names.items(), &message),
        Call::Now => ask_time(alloc, state, host),
        Call::Load(file) => load(alloc, state, host, &file),
        Call::Shell { command, input } => run(alloc, state, host, &command, &input),
        Call::Edit { command, text } => edit(alloc, state, host, &command, &text),
    }
}

/// Carries an activity out from this turn on, to its end or to where the run is cut off.
pub fn drive<H: Host, A: Activity>(
    alloc: Global,
    state: &mut SessionState,
    host: &mut H,
    activity: &mut A,
    first: Turn,
) -> Result<Flow, RunError>
    requires state { IsState state.old }
    requires ready { IsReady (A.takes activity.old state.old) A.ends first }
    ensures ran { Ran H.world host.old host.new
        (λ es. Goes (left_of (A.follows activity.old state.old) state.old first) es (in_play (next_of state.new) result)) }
    ensures changes { A.changes state.old state.new }
    ensures done { IfOk result A.ends }
    ensures no_disk { NeverCommits A.takes → IfErr result IsNoDiskFault }
    ensures cause { LineCaused (H.world.counts host.old) (H.world.counts host.new) result }
{
    let mut turn = first;
    'turns: loop {
        let call = match turn {
            Turn::Ask(call) => call,
            Turn::End(flow) => return Ok(flow),
        };
        let answer = match perform(alloc, state, host, call) {
            Ok(answer) => answer,
            Err(error) => return Err(error),
        };
        match activity.take(alloc, state, answer) {
            Ok(next) => turn = next,
            Err(Memory) => return Err(RunError::Memory),
        }
    }
}
