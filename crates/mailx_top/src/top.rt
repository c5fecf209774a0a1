// The whole run.
ghost use Rattle.std.specs.Prelude.{◌≡◌, ◌++◌, ◌∷◌, ℕ, true, List, Some, None, IfOk, codes};
ghost use Rattle.host_port.specs.Calls.{Rose};
ghost use Rattle.host_port.specs.Disk.{disk};
ghost use Rattle.host_port.specs.Ran.{Ran};
ghost use Rattle.host_port.specs.declared.event.Event.{Event};
ghost use Rattle.session_play.specs.Play.{Play, Loop, Caused};
ghost use Rattle.mailx_vars.specs.Environment.{knows_user};
ghost use Rattle.mailx_top.specs.Meaning.{round, first_of, actor_in, actor_said, files_with, prepared, Recovering, Preparing, Opening};
ghost use Rattle.mailx_top.specs.Openings.{OpensBadly};
ghost use Rattle.mailx_top.specs.Complete.{IsStill, IsComplete};
ghost use Rattle.mailx_top.specs.Runs.{IsRun, SaysLast, SaysAtEnd};
ghost use Rattle.mailx_top.specs.Ends.{ended_as};
ghost use Rattle.mailx_top.specs.Statuses.{line_at_stop, line_at_end, not_a_record};
ghost use Rattle.session_state.specs.Statuses.{IsEnd};
ghost use Rattle.mailx_top.specs.Usage.{EndsAsNamed, EndsOr, EndsUnopened, IsBadName, IsOrCut, IsUnopened};
ghost use Rattle.mailx_top.specs.Wants.{may_start, start_from};
ghost use Rattle.folder_commit.specs.Safe.{MayCommit};
ghost use Rattle.mailx_top.specs.Crash.{IsSafe};
ghost use Rattle.mailx_top.specs.Words.{asked, may_say, options_of, start_by, start_of};
ghost use Rattle.mailx_top.specs.Trying.{Does, DoesSafely, IsRefused, IsTriesEnd, tries_of};
ghost use Rattle.std.specs.Option.{option_and_then};
ghost use Rattle.command_words.specs.Readings.{reading};

use crate::Environment;
use crate::open::{end_with_usage, open_or_begin};
use crate::recovering::recover_unless_sending;
use crate::sending::mode_with;
use crate::session::lines;
use crate::startup::read_files;
use crate::status::{stop_line, stop_status};
use crate::trying::{tries_of, try_out};
use crate::words::{Start, asked_by, may_say, start_of, wanted};
use command_words::Wanted;
use commit_machine::record_name;
use host_port::Host;
use mail_text::{Items, Memory, Text};
use mailx_session::{Session, Status};
use mailx_vars::Places;
use session_play::Stop;
use std::alloc::Global;

// A session from the opening of its folder, or from the begin of its draft, to its end.
fn open_session<H: Host>(
    alloc: Global,
    host: &mut H,
    start: Start<'_>,
    session: &mut Session,
) -> Result<Status, Stop>
    ensures ran { (env : Environment) → Ran H.world host.old host.new
        (λ es. Loop (round env) (Opening (Some (start_from start.entry)) session.old) es result) }
    ensures cause { Caused (H.world.counts host.old) (H.world.counts host.new) result }
    ensures plain { IfOk result (λ e. IsEnd e) }
    ensures bad_name { OpensBadly (Opening (Some (start_from start.entry)) session.old)
        → EndsOr Status.NoFolder result }
{
    match open_or_begin(alloc, host, start, session) {
        Ok(None) => lines(alloc, host, session),
        Ok(Some(end)) => Ok(end),
        Err(cause) => Err(cause),
    }
}

// A session from its start-up files to its end.
fn read_session<H: Host>(
    alloc: Global,
    host: &mut H,
    start: Start<'_>,
    session: &mut Session,
) -> Result<Status, Stop>
    ensures ran { (env : Environment) → Ran H.world host.old host.new
        (λ es. Loop (round env) (Preparing (start_from start.entry) session.old
        (files_with (options_of (start_from start.entry)).no_system_file session.old.desk.places.rc)) es result) }
    ensures cause { Caused (H.world.counts host.old) (H.world.counts host.new) result }
    ensures plain { IfOk result (λ e. IsEnd e) }
{
    match read_files(alloc, host, start.options().no_system_file, session) {
        Ok(()) => open_session(alloc, host, start, session),
        Err(cause) => Err(cause),
    }
}

// A session from its start to its end. A silent one reads no start-up file.
fn prepare_session<H: Host>(
    alloc: Global,
    host: &mut H,
    env: &Environment,
    start: Start<'_>,
    session: &mut Session,
) -> Result<Status, Stop>
    requires { session.old ≡ first_of env.now (Some (start_from start)) }
    ensures ran { Ran H.world host.old host.new
        (λ es. Loop (round env.now) (prepared env.now (start_from start.entry)) es result) }
    ensures cause { Caused (H.world.counts host.old) (H.world.counts host.new) result }
    ensures plain { IfOk result (λ e. IsEnd e) }
    ensures bad_name { IsBadName env.now (Some (start_from start.entry)) → EndsOr Status.NoFolder result }
{
    if start.options().exists {
        open_session(alloc, host, start, session)
    } else {
        read_session(alloc, host, start, session)
    }
}

// A session from its recovery to its end.
fn play_session<H: Host>(
    alloc: Global,
    host: &mut H,
    env: &Environment,
    start: Start<'_>,
    session: &mut Session,
) -> Result<Status, Stop>
    requires { session.old ≡ first_of env.now (Some (start_from start)) }
    ensures ran { Ran H.world host.old host.new
        (λ es. Loop (round env.now) (Recovering (Some (start_from start.entry))) es result) }
    ensures cause { Caused (H.world.counts host.old) (H.world.counts host.new) result }
    ensures plain { IfOk result (λ e. IsEnd e) }
    ensures bad_name { IsBadName env.now (Some (start_from start.entry)) → EndsUnopened result }
{
    match recover_unless_sending(alloc, host, start, session) {
        Ok(None) => prepare_session(alloc, host, env, start, session),
        Ok(Some(end)) => Ok(end),
        Err(cause) => Err(cause),
    }
}

// The environment's variables, with a mailbox of another user as system mailbox.
fn pairs_of_user(
    alloc: Global,
    pairs: &[(Text, Text)],
    user: &[u8],
) -> Result<Items<(Text, Text)>, Memory>
    ensures { IfOk result (λ all. all ≡ (codes "MAIL", codes "/var/mail/" ++ user.now) ∷ pairs.now) }
{
    let mut all = Items::new(alloc);
    let mut file = Text::copy(alloc, b"/var/mail/")?;
    file.push(user)?;
    all.push((Text::copy(alloc, b"MAIL")?, file))?;
    for (name, value) in pairs {
        let pair = (
            Text::copy(alloc, name.bytes())?,
            Text::copy(alloc, value.bytes())?,
        );
        all.push(pair)?;
    }
    Ok(all)
}

// The session that a run begins with.
fn first_session(alloc: Global, env: &Environment, start: Start<'_>) -> Result<Session, Memory>
    requires { knows_user env.now.pairs ≡ true }
    ensures { IfOk result (λ session. session ≡ first_of env.now (Some (start_from start.entry))) }
{
    let mode = mode_with(start);
    let options = start.options();
    let by_recipient = options.named;
    let folder = env.folder.bytes();
    match &options.user {
        Some(user) => {
            let pairs = pairs_of_user(alloc, env.pairs.items(), user.bytes())?;
            Session::new(
                alloc,
                folder,
                pairs.items(),
                mode,
                env.terminal,
                by_recipient,
                env.token,
            )
        }
        None => Session::new(
            alloc,
            folder,
            env.pairs.items(),
            mode,
            env.terminal,
            by_recipient,
            env.token,
        ),
    }
}

fn start_session<H: Host>(
    alloc: Global,
    host: &mut H,
    env: &Environment,
    start: Start<'_>,
) -> Result<Status, Stop>
    requires { knows_user env.now.pairs ≡ true }
    ensures ran { Ran H.world host.old host.new
        (λ es. Loop (round env.now) (Recovering (Some (start_from start.entry))) es result) }
    ensures cause { Caused (H.world.counts host.old) (H.world.counts host.new) result }
    ensures plain { IfOk result (λ e. IsEnd e) }
    ensures bad_name { IsBadName env.now (Some (start_from start.entry)) → EndsUnopened result }
{
    match first_session(alloc, env, start) {
        Ok(mut session) => play_session(alloc, host, env, start, &mut session),
        Err(Memory) => Err(Stop::Memory),
    }
}

fn play<H: Host>(
    alloc: Global,
    host: &mut H,
    asked: Option<Start<'_>>,
    env: &Environment,
) -> Result<Status, Stop>
    ensures ran { Ran H.world host.old host.new
        (λ es. Loop (round env.now) (Recovering (start_of (may_start asked.entry) env.now.pairs)) es result) }
    ensures cause { Caused (H.world.counts host.old) (H.world.counts host.new) result }
    ensures named { EndsAsNamed env.now (start_of (may_start asked.entry) env.now.pairs) result }
{
    match start_of(asked, env) {
        Some(start) => start_session(alloc, host, env, start),
        None => end_with_usage(host),
    }
}

// How a run that isn't cut off ends, and the line that is printed last, if there is one.
#[derive(Drop)]
struct End {
    status: Status,
    line: Option<Text>,
}

// The line of an actor's record that can't be read.
fn not_a_record(alloc: Global, actor: &[u8]) -> Result<Text, Memory>
    ensures { IfOk result (λ line. line ≡ not_a_record actor.now) }
{
    let mut line = record_name(alloc, actor)?;
    line.push(b": not a commit record")?;
    line.push(b"\n")?;
    Ok(line)
}

// The actor of a home folder, as it is said.
fn actor_said(alloc: Global, home: &[u8]) -> Result<Text, Memory>
    ensures { IfOk result (λ actor. actor ≡ home.now ++ codes "/.mailx") }
{
    let mut actor = Text::copy(alloc, home)?;
    actor.push(b"/.mailx")?;
    Ok(actor)
}

// The line of the run's own record, if it can't be read: the home folder in its name is as it was typed.
fn record_line(alloc: Global, env: &Environment) -> Result<Text, Memory>
    ensures { IfOk result (λ line. line ≡ not_a_record (actor_said env.now)) }
{
    match Places::read(alloc, env.pairs.items())? {
        Some(places) => {
            let actor = actor_said(alloc, places.home.bytes())?;
            not_a_record(alloc, actor.bytes())
        }
        None => Err(Memory),
    }
}

// An end with its line.
fn end_of(alloc: Global, env: &Environment, status: Status) -> Result<End, Memory>
    ensures status { IfOk result (λ end. end.status ≡ status) }
    ensures line { IfOk result (λ end. end.line ≡ line_at_end (actor_said env.now) status) }
{
    let line = match status {
        Status::BadRecord => Some(record_line(alloc, env)?),
        _ => None,
    };
    Ok(End { status, line })
}

// All rounds of a run; when they end its last line is made, or memory runs out.
fn play_to_end<H: Host>(
    alloc: Global,
    host: &mut H,
    asked: Option<Start<'_>>,
    env: &Environment,
) -> Result<End, Stop>
    ensures ran { Ran H.world host.old host.new
        (λ es. Loop (round env.now) (Recovering (start_of (may_start asked.entry) env.now.pairs)) es
        (ended_as result)) }
    ensures cause { Caused (H.world.counts host.old) (H.world.counts host.new) result }
    ensures named { EndsAsNamed env.now (start_of (may_start asked.entry) env.now.pairs) (ended_as result) }
    ensures line { IfOk result (λ end. end.line ≡ line_at_end (actor_said env.now) end.status) }
{
    match play(alloc, host, asked, env) {
        Ok(status) => match end_of(alloc, env, status) {
            Ok(end) => Ok(end),
            Err(Memory) => Err(Stop::Memory),
        },
        Err(cause) => Err(cause),
    }
}

// Prints a last line, if one may be printed.
fn say_last<H: Host>(host: &mut H, asked: Option<Start<'_>>, line: &[u8])
    ensures { Ran H.world host.old host.new (SaysLast (may_say (may_start asked.entry)) line.now) }
{
    if may_say(asked) {
        let _ = host.say(line);
    }
}

// Prints the line of an end, if there is one and it may be printed.
fn say_end<H: Host>(host: &mut H, asked: Option<Start<'_>>, end: &End)
    ensures { Ran H.world host.old host.new (SaysAtEnd (may_say (may_start asked.entry)) end.now.line) }
{
    match &end.line {
        Some(line) => say_last(host, asked, line.bytes()),
        None => {}
    }
}

// Prints why the run is cut off, if that may be printed.
fn say_cut<H: Host>(host: &mut H, asked: Option<Start<'_>>, cause: Stop)
    ensures { Ran H.world host.old host.new (SaysLast (may_say (may_start asked.entry)) (line_at_stop cause)) }
{
    if may_say(asked) {
        let _ = host.say(stop_line(cause));
    }
}

/// Carries out what the words ask for, if that is no trial.
pub(crate) fn run_words<H: Host>(
    alloc: Global,
    wanted: &Option<Wanted>,
    env: &Environment,
    host: &mut H,
) -> Status
    ensures run { Ran H.world host.old host.new (IsRun (option_and_then start_by wanted.now) env.now result) }
    ensures input_fault { result ≡ Status.InputFault
        → Rose (H.world.counts host.old).ins (H.world.counts host.new).ins }
    ensures output_fault { result ≡ Status.OutputFault
        → Rose (H.world.counts host.old).outs (H.world.counts host.new).outs }
    ensures disk_fault { result ≡ Status.DiskFault
        → Rose (H.world.counts host.old).disks (H.world.counts host.new).disks }
    ensures usage_only { result ≡ Status.Usage
        → start_of (option_and_then start_by wanted.now) env.now.pairs ≡ None }
    ensures usage_always { start_of (option_and_then start_by wanted.now) env.now.pairs ≡ None
        → IsOrCut Status.Usage result }
    ensures complete { (start_of (option_and_then start_by wanted.now) env.now.pairs ≡ None → ⊥)
        → IsStill (H.world.counts host.old) (H.world.counts host.new)
        → (es : List Event) → IsComplete (option_and_then start_by wanted.now) env.now result es }
    ensures bad_name { IsBadName env.now (start_of (option_and_then start_by wanted.now) env.now.pairs)
        → IsUnopened result }
    ensures safe { (before es : List Event) → H.world.told host.old ≡ Some before
        → H.world.told host.new ≡ Some (before ++ es)
        → MayCommit (actor_in env.now) env.now.token (disk (H.world.start host.old) before) es
        → IsSafe (option_and_then start_by wanted.now) env.now result (disk (H.world.start host.old) before) es }
{
    // the clause `safe` speaks of a token of 64 bits
    let _token = env.token;
    let asked = asked_by(wanted);
    match play_to_end(alloc, host, asked, env) {
        Ok(end) => {
            say_end(host, asked, &end);
            end.status
        }
        Err(cause) => {
            say_cut(host, asked, cause);
            stop_status(cause)
        }
    }
}

/// All that the program does: it reads the words of the command line without the program's own name, recovers what a
/// stopped run has left, says so and opens the folder that they ask for, or begins the draft that they ask for, carries
/// out the lines of its input, and answers how it ended. Or, if they ask for that, it tries itself on a mailbox in memory.
/// The status' cause is the clause of its name.
pub fn run<H: Host>(alloc: Global, words: &[Text], env: &Environment, host: &mut H) -> Status
    // The own events are those of the command meaning, or the summary of a trial; output and status are its.
    ensures run { Ran H.world host.old host.new
        (Does (tries_of (reading words.now) env.now.pairs) (asked words.now) env.now result) }
    // A fault is answered only if the host's count of it rose.
    ensures input_fault { result ≡ Status.InputFault
        → Rose (H.world.counts host.old).ins (H.world.counts host.new).ins }
    ensures output_fault { result ≡ Status.OutputFault
        → Rose (H.world.counts host.old).outs (H.world.counts host.new).outs }
    ensures disk_fault { result ≡ Status.DiskFault
        → Rose (H.world.counts host.old).disks (H.world.counts host.new).disks }
    // The usage is answered exactly when the words or the environment are refused.
    ensures usage_only { result ≡ Status.Usage
        → IsRefused (tries_of (reading words.now) env.now.pairs) (start_of (asked words.now) env.now.pairs) }
    ensures usage_always { IsRefused (tries_of (reading words.now) env.now.pairs)
        (start_of (asked words.now) env.now.pairs) → IsOrCut Status.Usage result }
    // If no fault is counted, and nothing stands in the way of what the words and lines mean, the run ends as they
    // mean it, or memory ran out.
    ensures complete { (start_of (asked words.now) env.now.pairs ≡ None → ⊥)
        → IsStill (H.world.counts host.old) (H.world.counts host.new)
        → (es : List Event) → IsComplete (asked words.now) env.now result es }
    // A run that tries itself ends with 0, with 8 for want of memory, or with 4 if its output fails.
    ensures tries { (n : ℕ) → tries_of (reading words.now) env.now.pairs ≡ Some n → IsTriesEnd result }
    // A folder whose word stands for no file, or for a name that no file can have, is none, whatever the host tells,
    // if no start-up file is read.
    ensures bad_name { IsBadName env.now (start_of (asked words.now) env.now.pairs) → IsUnopened result }
    // From a disk that is sound and carries nothing of the token, with lawful steps of others: at every moment, and
    // wherever the run stops, what recovery would make of the files is what the accepted commits and others give.
    ensures safe { (before es : List Event) → H.world.told host.old ≡ Some before
        → H.world.told host.new ≡ Some (before ++ es)
        → MayCommit (actor_in env.now) env.now.token (disk (H.world.start host.old) before) es
        → DoesSafely (tries_of (reading words.now) env.now.pairs) (asked words.now) env.now result
        (disk (H.world.start host.old) before) es }
{
    // the clause `safe` speaks of a token of 64 bits
    let _token = env.token;
    let wanted = match wanted(alloc, words) {
        Ok(wanted) => wanted,
        Err(Memory) => return Status::Memory,
    };
    match tries_of(&wanted, env) {
        Some(count) => try_out(alloc, count, host),
        None => run_words(alloc, &wanted, env, host),
    }
}
