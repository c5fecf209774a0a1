// The acts of a play, each by the host's calls.
ghost use Rattle.std.specs.Prelude.{◌≡◌, ◌≤◌, length, IfErr, IfOk, IfNone, IfSome};
ghost use Rattle.host_port.specs.Calls.{Rose, output_limit};
ghost use Rattle.host_port.specs.Names.{IsFileName};
ghost use Rattle.host_port.specs.Ran.{Ran};
ghost use Rattle.session_play.specs.Cuts.{IsLoadCut};
ghost use Rattle.mail_dates.specs.Clock.{IsPrintable};
ghost use Rattle.session_play.specs.Moments.{IsZoneOf};
ghost use Rattle.session_play.specs.Play.{Play, Ask, Ret, Say, Read, Try, Child, Editor, Now, Goes, Caused};

use crate::Stop;
use host_port::{ChildAnswer, ChildError, EditAnswer, Host, LoadAnswer, LoadError};
use mail_dates::{Moment, Zone, ZoneError, moment_at, utc, zone_of};
use mail_text::{Memory, Text};
use std::alloc::Global;

/// What a load found.
#[derive(Drop, Debug)]
pub enum Found {
    /// The whole file, or None if it is absent, and whether a lock on its name stood.
    Bytes { bytes: Option<Text>, held: bool },
    /// A file of this many bytes, more than a load takes.
    TooLarge { length: u64 },
}

/// Says these bytes.
pub fn say<H: Host>(host: &mut H, bytes: &[u8]) -> Result<(), Stop>
    ensures ran { Ran H.world host.old host.new (λ es. Goes (Ask (Say bytes.now) Ret) es result) }
    ensures cause { Caused (H.world.counts host.old) (H.world.counts host.new) result }
    ensures only_output { IfErr result (λ cause. cause ≡ Stop.Output) }
{
    match host.say(bytes) {
        Ok(()) => Ok(()),
        Err(_) => Err(Stop::Output),
    }
}

// What a load answered.
fn found_of(answer: LoadAnswer) -> Found
    ensures { result ≡ Found.Bytes answer.bytes answer.held }
{
    Found::Bytes {
        bytes: answer.bytes,
        held: answer.held,
    }
}

/// Loads a file; a failure cuts the run off.
pub fn load<H: Host>(alloc: Global, host: &mut H, name: &[u8]) -> Result<Found, Stop>
    requires { IsFileName name.now }
    ensures ran { Ran H.world host.old host.new (λ es. Goes (Ask (Read name.now) Ret) es result) }
    ensures cause { Caused (H.world.counts host.old) (H.world.counts host.new) result }
    ensures only_load { IfErr result IsLoadCut }
{
    match host.load(alloc, name) {
        Ok(answer) => Ok(found_of(answer)),
        Err(LoadError::TooLarge { length }) => Ok(Found::TooLarge { length }),
        Err(LoadError::Failed) => Err(Stop::Disk),
        Err(LoadError::Memory) => Err(Stop::Memory),
    }
}

/// Tries to load a file; None if the load fails.
pub fn try_load<H: Host>(alloc: Global, host: &mut H, name: &[u8]) -> Result<Option<Found>, Stop>
    requires { IsFileName name.now }
    ensures ran { Ran H.world host.old host.new (λ es. Goes (Ask (Try name.now) Ret) es result) }
    ensures cause { Caused (H.world.counts host.old) (H.world.counts host.new) result }
    ensures only_memory { IfErr result (λ cause. cause ≡ Stop.Memory) }
{
    match host.load(alloc, name) {
        Ok(answer) => Ok(Some(found_of(answer))),
        Err(LoadError::TooLarge { length }) => Ok(Some(Found::TooLarge { length })),
        Err(LoadError::Failed) => Ok(None),
        Err(LoadError::Memory) => Err(Stop::Memory),
    }
}

/// Runs a program with these arguments and this input, and waits for its end; None if it could not be run.
pub fn run_child<H: Host>(
    alloc: Global,
    host: &mut H,
    program: &[u8],
    args: &[Text],
    input: &[u8],
) -> Result<Option<ChildAnswer>, Stop>
    ensures ran { Ran H.world host.old host.new
        (λ es. Goes (Ask (Child program.now args.now input.now) Ret) es result) }
    ensures cause { Caused (H.world.counts host.old) (H.world.counts host.new) result }
    ensures only_memory { IfErr result (λ cause. cause ≡ Stop.Memory) }
    ensures failed { IfOk result (λ answer. IfNone answer
        (Rose (H.world.counts host.old).children (H.world.counts host.new).children)) }
    ensures bound { IfOk result (λ answer. IfSome answer (λ a. length a.output ≤ output_limit)) }
{
    match host.child(alloc, program, args, input) {
        Ok(answer) => Ok(Some(answer)),
        Err(ChildError::Failed) => Ok(None),
        Err(ChildError::Memory) => Err(Stop::Memory),
    }
}

/// Runs an editor on a text, in a file of this name, and waits for its end; None if it could not be run.
pub fn run_editor<H: Host>(
    alloc: Global,
    host: &mut H,
    name: &[u8],
    shell: &[u8],
    command: &[u8],
    text: &[u8],
) -> Result<Option<EditAnswer>, Stop>
    ensures ran { Ran H.world host.old host.new
        (λ es. Goes (Ask (Editor name.now shell.now command.now text.now) Ret) es result) }
    ensures cause { Caused (H.world.counts host.old) (H.world.counts host.new) result }
    ensures only_memory { IfErr result (λ cause. cause ≡ Stop.Memory) }
    ensures bound { IfOk result (λ answer. IfSome answer (λ a. length a.text ≤ output_limit)) }
{
    match host.edit(alloc, name, shell, command, text) {
        Ok(answer) => Ok(Some(answer)),
        Err(ChildError::Failed) => Ok(None),
        Err(ChildError::Memory) => Err(Stop::Memory),
    }
}

// The zone of a TZ text; UTC if the text is no POSIX rule.
fn zone_in(alloc: Global, tz: &[u8]) -> Result<Zone, Memory>
    ensures { IfOk result (IsZoneOf tz.now) }
{
    match zone_of(alloc, tz) {
        Ok(zone) => Ok(zone),
        Err(ZoneError::NotARule) => Ok(utc()),
        Err(ZoneError::Memory) => Err(Memory),
    }
}

/// The moment that it is, in the zone of a TZ text; in UTC if the text is no POSIX rule (POSIX.1-2017, Base
/// Definitions, 8.3). Fails only if memory runs out.
pub fn now<H: Host>(alloc: Global, host: &mut H, tz: &[u8]) -> Result<Moment, Stop>
    ensures ran { Ran H.world host.old host.new (λ es. Goes (Ask (Now tz.now) Ret) es result) }
    ensures cause { Caused (H.world.counts host.old) (H.world.counts host.new) result }
    ensures only_memory { IfErr result (λ cause. cause ≡ Stop.Memory) }
    ensures printable { IfOk result IsPrintable }
{
    match zone_in(alloc, tz) {
        Ok(zone) => {
            let seconds = host.now();
            Ok(moment_at(&zone, seconds))
        }
        Err(Memory) => Err(Stop::Memory),
    }
}
