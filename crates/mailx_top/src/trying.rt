// Try mode.
ghost use Rattle.std.specs.Prelude.{◌≡◌, ℕ, [], IfOk, length, unwrap_or};
ghost use Rattle.std.specs.Option.{option_copied};
ghost use Rattle.host_port.specs.Calls.{Rose};
ghost use Rattle.host_port.specs.Ran.{Ran};
ghost use Rattle.mailx_top.specs.Runs.{AsFar, IsRun};
ghost use Rattle.mailx_top.specs.Words.{asked};
ghost use Rattle.trial_host.specs.Scripts.{scripted_world};
ghost use Rattle.mailx_top.specs.Statuses.{line_at_stop};
ghost use Rattle.mailx_top.specs.Trying.{HasTried, IsSummary, IsTrialEnd, IsTriesEnd, Tries, messages_in, summary_of, trial_env, trial_words, tries_of};

use crate::Environment;
use crate::status::stop_line;
use crate::top::run_words;
use crate::trial::{trial_env, trial_words};
use crate::words::wanted;
use command_words::{Mode, Wanted};
use host_memory::MemHost;
use host_port::Host;
use mail_text::{Memory, Text};
use mailx_session::Status;
use mailx_vars::knows_user;
use mbox_scan::{Folder, ScanError};
use session_play::Stop;
use std::alloc::Global;
use trial_host::{Scripted, first_host, put_numbered};

/// On how many messages a run tries itself, if its words ask for that.
pub(crate) fn tries_of(wanted: &Option<Wanted>, env: &Environment) -> Option<u64>
    ensures { result ≡ tries_of wanted.now env.now.pairs }
{
    match wanted {
        Some(wanted) => match wanted.mode {
            Mode::Try { count } if knows_user(env.pairs.items()) => Some(count),
            _ => None,
        },
        None => None,
    }
}

// The status of a trial that is done, or for which memory ran out. One with another status counts as memory running out.
fn trial_end(status: Status) -> Result<Status, Memory>
    ensures same { IfOk result (λ s. s ≡ status) }
    ensures ends { IfOk result IsTrialEnd }
{
    match status {
        Status::Done | Status::Memory => Ok(status),
        _ => Err(Memory),
    }
}

// A trial with these words in this environment.
fn try_words(
    alloc: Global,
    words: &[Text],
    env: &Environment,
    host: &mut Scripted,
) -> Result<Status, Memory>
    ensures ran { IfOk result
        (λ s. Ran scripted_world host.old host.new (IsRun (asked words.now) env.now s)) }
    ensures ends { IfOk result IsTrialEnd }
{
    match wanted(alloc, words) {
        Ok(wanted) => trial_end(run_words(alloc, &wanted, env, host)),
        Err(memory) => Err(memory),
    }
}

// A trial.
fn try_over(alloc: Global, host: &mut Scripted) -> Result<Status, Memory>
    ensures ran { IfOk result
        (λ s. Ran scripted_world host.old host.new (IsRun (asked trial_words) trial_env s)) }
    ensures ends { IfOk result IsTrialEnd }
{
    let words = trial_words(alloc)?;
    let env = trial_env(alloc)?;
    try_words(alloc, words.items(), &env, host)
}

/// A run of the words `-N -f box` over a host in memory, on a mailbox of this many messages: it shows threads, deletes
/// the messages of one subject, saves those of one sender and quits. Gives that host as the run left it, and the run's
/// status, which is that of a run that is done, or for which memory ran out. A run that ended otherwise counts as memory
/// running out.
pub fn try_host(alloc: Global, count: u64) -> Result<(MemHost, Status), Memory>
    ensures tried { IfOk result (λ r. HasTried count r.1 r.0) }
    ensures ends { IfOk result (λ r. IsTrialEnd r.1) }
{
    match first_host(alloc, count) {
        Ok(mut host) => match try_over(alloc, &mut host) {
            Ok(status) => Ok((host.into_memory(), status)),
            Err(memory) => {
                drop(host);
                Err(memory)
            }
        },
        Err(memory) => Err(memory),
    }
}

// How many messages a file has.
fn messages_in(alloc: Global, file: Option<&Text>) -> Result<usize, Memory>
    ensures { IfOk result (λ n. n ≡ messages_in (option_copied file.entry)) }
{
    let Some(bytes) = file else {
        return Ok(0);
    };
    match Folder::open(alloc, Text::copy(alloc, bytes.bytes())?) {
        Ok(folder) => Ok(folder.count()),
        Err(ScanError::NotAMailbox) => Ok(0),
        Err(_) => Err(Memory),
    }
}

// How many bytes a file has.
fn length_of(file: Option<&Text>) -> usize
    ensures { result ≡ length (unwrap_or (option_copied file.entry) []) }
{
    match file {
        Some(bytes) => bytes.bytes().len(),
        None => 0,
    }
}

// What is printed of the files that a trial leaves.
fn summary_of(
    alloc: Global,
    count: u64,
    kept_in: Option<&Text>,
    saved_in: Option<&Text>,
) -> Result<Text, Memory>
    ensures { IfOk result
        (λ text. text ≡ summary_of count (option_copied kept_in.entry) (option_copied saved_in.entry)) }
{
    let kept = messages_in(alloc, kept_in)? as u64;
    let saved = messages_in(alloc, saved_in)? as u64;
    let mut out = Text::new(alloc);
    put_numbered(&mut out, b"messages ", count, b"")?;
    put_numbered(&mut out, b"deleted ", count.saturating_sub(kept), b"")?;
    put_numbered(&mut out, b"saved ", saved, b"")?;
    put_numbered(&mut out, b"kept ", kept, b"")?;
    put_numbered(&mut out, b"bytes ", length_of(kept_in) as u64, b"")?;
    Ok(out)
}

// What is printed of a host that tried.
fn summary_left(alloc: Global, count: u64, host: &MemHost, status: Status) -> Result<Text, Memory>
    requires { HasTried count status host.now }
    ensures { IfOk result (IsSummary count) }
{
    if host.lost() {
        return Err(Memory);
    }
    match status {
        Status::Done => summary_of(alloc, count, host.file(b"box"), host.file(b"saved")),
        _ => Err(Memory),
    }
}

// The summary of a trial.
fn summary(alloc: Global, count: u64) -> Result<Text, Memory>
    ensures { IfOk result (IsSummary count) }
{
    match try_host(alloc, count) {
        Ok((host, status)) => summary_left(alloc, count, &host, status),
        Err(memory) => Err(memory),
    }
}

// Prints why a run is cut off.
fn say_stop<H: Host>(host: &mut H, cause: Stop)
    ensures { Ran H.world host.old host.new (AsFar (line_at_stop cause)) }
{
    let _ = host.say(stop_line(cause));
}

// Prints a summary.
fn say_summary<H: Host>(host: &mut H, text: &[u8]) -> Status
    ensures tries { (n : ℕ) → IsSummary n text.now → Ran H.world host.old host.new (Tries n result) }
    ensures output_fault { result ≡ Status.OutputFault
        → Rose (H.world.counts host.old).outs (H.world.counts host.new).outs }
    ensures ends { IsTriesEnd result }
{
    match host.say(text) {
        Ok(()) => Status::Done,
        Err(_) => {
            say_stop(host, Stop::Output);
            Status::OutputFault
        }
    }
}

/// A run that tries itself on this many messages.
pub(crate) fn try_out<H: Host>(alloc: Global, count: u64, host: &mut H) -> Status
    ensures tries { Ran H.world host.old host.new (Tries count result) }
    ensures output_fault { result ≡ Status.OutputFault
        → Rose (H.world.counts host.old).outs (H.world.counts host.new).outs }
    ensures ends { IsTriesEnd result }
{
    match summary(alloc, count) {
        Ok(text) => say_summary(host, text.bytes()),
        Err(Memory) => {
            say_stop(host, Stop::Memory);
            Status::Memory
        }
    }
}
