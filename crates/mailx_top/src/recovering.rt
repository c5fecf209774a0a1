// What a stopped commit has left is recovered before all else.
ghost use Rattle.std.specs.Prelude.{◌≡◌, Some, IfErr};
ghost use Rattle.host_port.specs.Ran.{Ran};
ghost use Rattle.session_play.specs.Play.{Play, Ask, Recover, Goes, Caused};
ghost use Rattle.mailx_top.specs.declared.environment.Environment.{Environment};
ghost use Rattle.mailx_top.specs.Meaning.{recovered, recovering, says_any, first_of, after_recovery};
ghost use Rattle.mailx_top.specs.RecoveryLines.{heard_recovery};
ghost use Rattle.mailx_top.specs.Usage.{IsSayCut, StopsAtStart};
ghost use Rattle.mailx_top.specs.Wants.{start_from};
ghost use Rattle.mailx_top.specs.Words.{Opens};

use crate::open::end_at_file;
use crate::recovery_line::heard_recovery;
use crate::words::Start;
use command_words::Options;
use folder_recovery::Recovered;
use host_port::Host;
use mail_text::Memory;
use mailx_session::{Session, Status};
use session_play::{RecoveryAnswer, Stop, recovery, say};
use std::alloc::Global;

// Says what a recovery did, if a record stood and the run isn't to be silent.
fn say_recovery<H: Host>(
    alloc: Global,
    host: &mut H,
    options: &Options,
    found: Recovered,
) -> Result<(), Stop>
    ensures ran { Ran H.world host.old host.new
        (λ es. Goes (says_any (heard_recovery options.now.exists found)) es result) }
    ensures cause { Caused (H.world.counts host.old) (H.world.counts host.new) result }
    ensures only_said { IfErr result IsSayCut }
{
    match heard_recovery(alloc, options, found) {
        Ok(Some(line)) => say(host, line.bytes()),
        Ok(None) => Ok(()),
        Err(Memory) => Err(Stop::Memory),
    }
}

// What follows a recovery that is done.
fn go_on<H: Host>(
    alloc: Global,
    host: &mut H,
    options: &Options,
    found: Recovered,
) -> Result<Option<Status>, Stop>
    ensures ran { (env : Environment) → Ran H.world host.old host.new
        (λ es. Goes (recovered env options.now (RecoveryAnswer.Done found)) es
        (after_recovery env (Opens options.now) result)) }
    ensures cause { Caused (H.world.counts host.old) (H.world.counts host.new) result }
    ensures stops { StopsAtStart result }
{
    match say_recovery(alloc, host, options, found) {
        Ok(()) => Ok(None),
        Err(cause) => Err(cause),
    }
}

// What follows the recovery's answer.
fn answered<H: Host>(
    alloc: Global,
    host: &mut H,
    options: &Options,
    answer: RecoveryAnswer,
) -> Result<Option<Status>, Stop>
    ensures ran { (env : Environment) → Ran H.world host.old host.new
        (λ es. Goes (recovered env options.now answer) es
        (after_recovery env (Opens options.now) result)) }
    ensures cause { Caused (H.world.counts host.old) (H.world.counts host.new) result }
    ensures stops { StopsAtStart result }
{
    match answer {
        RecoveryAnswer::Done(found) => go_on(alloc, host, options, found),
        RecoveryAnswer::Busy { name } => {
            end_at_file(
                alloc,
                host,
                options,
                name.bytes(),
                b": busy",
                Status::Refused,
            )
        }
        RecoveryAnswer::NotARecord | RecoveryAnswer::TooLarge { .. } => Ok(Some(Status::BadRecord)),
    }
}

// Recovers what a stopped commit of the session's actor has left, and says what was done. None if the start-up files are
// to be read then, and the folder is to be opened, else how the run ends.
fn recover_first<H: Host>(
    alloc: Global,
    host: &mut H,
    options: &Options,
    session: &Session,
) -> Result<Option<Status>, Stop>
    ensures ran { (env : Environment) → Ran H.world host.old host.new
        (λ es. Goes (Ask (Recover session.now.actor session.now.token) (recovered env options.now)) es
        (after_recovery env (Opens options.now) result)) }
    ensures cause { Caused (H.world.counts host.old) (H.world.counts host.new) result }
    ensures stops { StopsAtStart result }
{
    match recovery(alloc, host, session.state().actor.bytes()) {
        Ok(answer) => answered(alloc, host, options, answer),
        Err(cause) => Err(cause),
    }
}

/// Recovers what a stopped commit has left, and says so, unless a draft is to be sent: then nothing is recovered.
pub(crate) fn recover_unless_sending<H: Host>(
    alloc: Global,
    host: &mut H,
    start: Start<'_>,
    session: &Session,
) -> Result<Option<Status>, Stop>
    ensures ran { (env : Environment) → session.now ≡ first_of env (Some (start_from start.entry))
        → Ran H.world host.old host.new (λ es. Goes (recovering env (Some (start_from start.entry))) es
        (after_recovery env (start_from start.entry) result)) }
    ensures cause { Caused (H.world.counts host.old) (H.world.counts host.new) result }
    ensures stops { StopsAtStart result }
{
    match start {
        Start::Opens(options) => recover_first(alloc, host, options, session),
        Start::Sends(_) => Ok(None),
    }
}
