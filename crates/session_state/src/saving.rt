// Changes of files that a command asks for, as one commit.
ghost use Rattle.std.specs.Prelude.{◌≡◌, ◌++◌, List, map, IfOk, IfErr};
ghost use Rattle.mail_text.specs.Lines.{with_feed};
ghost use Rattle.host_port.specs.Ran.{Ran};
ghost use Rattle.session_play.specs.Play.{Play, Goes};
ghost use Rattle.command_desk.specs.Faults.{busy, changed_at};
ghost use Rattle.folder_change.specs.Changes.{name_of};
ghost use Rattle.session_state.specs.Placing.{placed_changes, typed_name};
ghost use Rattle.session_state.specs.declared.state.SessionState.{SessionState};
ghost use Rattle.session_state.specs.States.{IsState};
ghost use Rattle.session_state.specs.Saving.{misnamed_line, name_fault, names_fault, is_changed, after_placed, saved};
ghost use Rattle.session_state.specs.Follows.{Follows};
ghost use Rattle.session_play.specs.Cuts.{IsLoadCut};
ghost use Rattle.session_state.specs.Answers.{after_asks, in_play, stop_of, LineCaused, EndsByAsk};

use crate::placing::{Targets, place, placed, typed_name};
use crate::{AskResult, RunError, SessionState, Status};
use command_desk::line_of;
use folder_change::{Change, change_name};
use host_port::Host;
use itoa::Buffer;
use mail_text::{Items, Memory, Text};
use session_play::{Attempt, Committed, NameFault, Stop, change, target_fault};
use std::alloc::Global;

// The line of what is wrong with a name.
fn misnamed_line(alloc: Global, name: &[u8], fault: NameFault) -> Result<Text, Memory>
    ensures { IfOk result (λ line. line ≡ misnamed_line name.now fault) }
{
    match fault {
        NameFault::Bad => line_of(alloc, name, b": bad name"),
        NameFault::Reserved => line_of(alloc, name, b": reserved name"),
    }
}

/// What is wrong with a name, for a file that a commit is to change.
pub fn name_fault(alloc: Global, state: &SessionState, name: &[u8]) -> Result<Option<Text>, Memory>
    ensures { IfOk result (λ fault. fault ≡ name_fault state.now name.now) }
{
    let file = placed(alloc, state.here.bytes(), name)?;
    match target_fault(state.actor.bytes(), file.bytes()) {
        Some(fault) => Ok(Some(misnamed_line(alloc, name, fault)?)),
        None => Ok(None),
    }
}

/// The line of the first of these changes whose file's name is at fault.
pub fn names_fault(
    alloc: Global,
    state: &SessionState,
    changes: &[Change],
) -> Result<Option<Text>, Memory>
    ensures { IfOk result (λ fault. fault ≡ names_fault state.now changes.now) }
{
    for change in changes {
        if let Some(line) = name_fault(alloc, state, change_name(change))? {
            return Ok(Some(line));
        }
    }
    Ok(None)
}

// The line of a file that isn't as it was loaded, from this message on.
fn changed_line(alloc: Global, name: &[u8], at: u64) -> Result<Text, Memory>
    ensures { IfOk result (λ line. line ≡ changed_at name.now at) }
{
    let mut buffer = Buffer::new();
    let mut line = Text::copy(alloc, name)?;
    line.push(b": changed at message ")?;
    line.push(buffer.format(at).as_bytes())?;
    line.push(b"\n")?;
    Ok(line)
}

// Whether one of the changes is of this file.
fn is_changed(changes: &[Change], file: &[u8]) -> bool
    ensures { result ≡ is_changed changes.now file.now }
{
    changes.iter().any(|change| change_name(change) == file)
}

// What is too large: a file that is changed, or the record or a staged file.
fn too_large(
    alloc: Global,
    state: &SessionState,
    targets: &Targets,
    file: Text,
    length: u64,
) -> Result<AskResult, Memory>
    ensures means { IfOk result (λ asked. after_asks state.now asked
        ≡ after_placed state.now targets.now.names targets.now.changes (Attempt.Made (Committed.TooLarge file length))) }
    ensures end { IfOk result EndsByAsk }
{
    if is_changed(targets.changes.items(), file.bytes()) {
        let name = typed_name(alloc, state.here.bytes(), targets.names.items(), file)?;
        refused(alloc, name.bytes(), b": too large")
    } else {
        Ok(AskResult::Ended(Status::BadRecord))
    }
}

/// Refuses by a word and what is wrong with it.
pub fn refused(alloc: Global, word: &[u8], fault: &[u8]) -> Result<AskResult, Memory>
    ensures { IfOk result (λ asked. asked ≡ AskResult.Refused (with_feed (word.now ++ fault.now))) }
{
    let line = line_of(alloc, word, fault)?;
    Ok(AskResult::Refused { line })
}

// Refuses by a file that is busy.
fn busy(alloc: Global, here: &[u8], names: &[Text], file: Text) -> Result<AskResult, Memory>
    ensures { IfOk result (λ asked. asked ≡ AskResult.Refused (busy (typed_name here.now names.now file))) }
{
    let name = typed_name(alloc, here, names, file)?;
    refused(alloc, name.bytes(), b": busy")
}

// Refuses by a file that has changed, from this message on.
fn changed(
    alloc: Global,
    here: &[u8],
    names: &[Text],
    file: Text,
    at: u64,
) -> Result<AskResult, Memory>
    ensures { IfOk result (λ asked. asked ≡ AskResult.Refused (changed_at (typed_name here.now names.now file) at)) }
{
    let name = typed_name(alloc, here, names, file)?;
    let line = changed_line(alloc, name.bytes(), at)?;
    Ok(AskResult::Refused { line })
}

// Refuses by a file whose name is at fault.
fn misnamed_file(
    alloc: Global,
    here: &[u8],
    names: &[Text],
    file: Text,
    fault: NameFault,
) -> Result<AskResult, Memory>
    ensures { IfOk result
        (λ asked. asked ≡ AskResult.Refused (misnamed_line (typed_name here.now names.now file) fault)) }
{
    let name = typed_name(alloc, here, names, file)?;
    let line = misnamed_line(alloc, name.bytes(), fault)?;
    Ok(AskResult::Refused { line })
}

// What the answer to a commit of these changes leaves.
fn after_commit(
    alloc: Global,
    state: &SessionState,
    targets: &Targets,
    answer: Committed,
) -> Result<AskResult, Memory>
    ensures means { IfOk result (λ asked. after_asks state.now asked
        ≡ after_placed state.now targets.now.names targets.now.changes (Attempt.Made answer)) }
    ensures end { IfOk result EndsByAsk }
{
    let here = state.here.bytes();
    let names = targets.names.items();
    match answer {
        Committed::Done => Ok(AskResult::On),
        Committed::Busy { name } => busy(alloc, here, names, name),
        Committed::NotARecord => Ok(AskResult::Ended(Status::BadRecord)),
        Committed::Changed { name, at } => changed(alloc, here, names, name, at),
        Committed::TooLarge { name, length } => too_large(alloc, state, targets, name, length),
        Committed::TooManyNames { .. } => refused(alloc, b"too many names", b""),
    }
}

// What changes leave by what came of them.
fn after_attempt(
    alloc: Global,
    state: &SessionState,
    targets: &Targets,
    attempt: Attempt,
) -> Result<AskResult, Memory>
    ensures means { IfOk result (λ asked. after_asks state.now asked
        ≡ after_placed state.now targets.now.names targets.now.changes attempt) }
    ensures end { IfOk result EndsByAsk }
{
    match attempt {
        Attempt::Made { answer } => after_commit(alloc, state, targets, answer),
        Attempt::Misnamed { name, fault } => {
            misnamed_file(
                alloc,
                state.here.bytes(),
                targets.names.items(),
                name,
                fault,
            )
        }
    }
}

// The error that a cut of a commit is.
fn error_of(cause: Stop) -> RunError
    requires { IsLoadCut cause }
    ensures { stop_of result ≡ cause }
{
    match cause {
        Stop::Disk => RunError::Disk,
        Stop::Output => RunError::Output,
        Stop::Input | Stop::TooMuch | Stop::Memory => RunError::Memory,
    }
}

// What a commit of these changes leaves, or the error that cuts the run off.
fn followed(
    alloc: Global,
    state: &SessionState,
    targets: &Targets,
    answer: Result<Attempt, Stop>,
) -> Result<AskResult, RunError>
    requires { IfErr answer IsLoadCut }
    ensures follows { Follows state.now targets.now.names targets.now.changes answer result }
    ensures end { IfOk result EndsByAsk }
{
    match answer {
        Ok(attempt) => Ok(after_attempt(alloc, state, targets, attempt)?),
        Err(cause) => Err(error_of(cause)),
    }
}

// Commits changes of these files.
fn commit_placed<H: Host>(
    alloc: Global,
    state: &SessionState,
    host: &mut H,
    targets: &Targets,
) -> Result<AskResult, RunError>
    requires state { IsState state.now }
    ensures ran { (changes : List Change) → targets.now.names ≡ map name_of changes
        → targets.now.changes ≡ placed_changes state.now.here changes → Ran H.world host.old host.new
        (λ es. Goes (saved state.now changes) es (in_play (after_asks state.now) result)) }
    ensures end { IfOk result EndsByAsk }
    ensures cause { LineCaused (H.world.counts host.old) (H.world.counts host.new) result }
{
    let folder = Some(&state.desk.folder.folder);
    let actor = state.actor.bytes();
    let answer = change(
        alloc,
        host,
        actor,
        state.token,
        targets.changes.items(),
        folder,
    );
    followed(alloc, state, targets, answer)
}

/// Commits changes, unless the name of a file is at fault.
pub fn commit<H: Host>(
    alloc: Global,
    state: &SessionState,
    host: &mut H,
    changes: Items<Change>,
) -> Result<AskResult, RunError>
    requires { IsState state.now }
    ensures ran { Ran H.world host.old host.new
        (λ es. Goes (saved state.now changes) es (in_play (after_asks state.now) result)) }
    ensures end { IfOk result EndsByAsk }
    ensures cause { LineCaused (H.world.counts host.old) (H.world.counts host.new) result }
{
    let targets = place(alloc, state.here.bytes(), changes)?;
    commit_placed(alloc, state, host, &targets)
}
