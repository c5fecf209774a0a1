// A file whose lines a command brings.
ghost use Rattle.std.specs.Prelude.{◌≡◌, ◌<◌, true, None, IfErr, IfOk};
ghost use Rattle.host_port.specs.Ran.{Ran};
ghost use Rattle.session_play.specs.Play.{Play, Ask, Ret, Try, Goes};
ghost use Rattle.session_state.specs.Bringing.{source_limit, sources, OnlyBrings};
ghost use Rattle.mailx_vars.specs.Names.{is_short_name};
ghost use Rattle.session_asks.specs.Sourcing.{source_fault, sourced, after_load};
ghost use Rattle.session_state.specs.States.{OnlyFrames};
ghost use Rattle.session_state.specs.Answers.{after_asks, in_play, EndsNoRun};

use crate::bringing::push_lines;
use command_desk::line_of;
use host_port::Host;
use mail_text::{Memory, Text};
use mailx_vars::is_short_name;
use session_play::{Found, try_load};
use session_state::{AskResult, FrameKind, RunError, SessionState, placed, refused};
use std::alloc::Global;

/// The most sourced files that are open at once.
const SOURCE_LIMIT: usize = 16;

// What stands in the way of a load: what is wrong with the name, or too many open files.
fn source_fault(alloc: Global, state: &SessionState, name: &[u8]) -> Result<Option<Text>, Memory>
    ensures { IfOk result (λ fault. fault ≡ source_fault state.now name.now) }
{
    let file = placed(alloc, state.here.bytes(), name)?;
    if !is_short_name(file.bytes()) {
        Ok(Some(line_of(alloc, name, b": bad name")?))
    } else if state.frames.sources() >= SOURCE_LIMIT {
        Ok(Some(line_of(alloc, b"sources nest too deep", b"")?))
    } else {
        Ok(None)
    }
}

// What the load of a file of this name leaves.
fn after_load(
    alloc: Global,
    state: &mut SessionState,
    name: &[u8],
    found: Option<Found>,
) -> Result<AskResult, Memory>
    requires { sources state.old.frames < source_limit }
    ensures means { IfOk result (λ asked. after_asks state.new asked ≡ after_load state.old name.now found) }
    ensures brings { OnlyBrings state.old state.new }
    ensures desk { OnlyFrames state.old state.new }
    ensures goes_on { IfOk result EndsNoRun }
{
    match found {
        Some(
            Found::Bytes {
                bytes: Some(text),
                ..
            },
        ) => push_lines(state, FrameKind::Source, text),
        Some(Found::Bytes { bytes: None, .. }) => refused(alloc, name, b": no such file"),
        Some(Found::TooLarge { .. }) => refused(alloc, name, b": too large"),
        None => refused(alloc, name, b": cannot be read"),
    }
}

// Loads a file that is said by this name, and brings its lines.
fn load_source<H: Host>(
    alloc: Global,
    state: &mut SessionState,
    host: &mut H,
    name: &[u8],
    file: &[u8],
) -> Result<AskResult, RunError>
    requires file { is_short_name file.now ≡ true }
    requires few { sources state.old.frames < source_limit }
    ensures ran { Ran H.world host.old host.new
        (λ es. Goes (Ask (Try file.now) (λ a. Ret (after_load state.old name.now a))) es
        (in_play (after_asks state.new) result)) }
    ensures brings { OnlyBrings state.old state.new }
    ensures desk { OnlyFrames state.old state.new }
    ensures goes_on { IfOk result EndsNoRun }
    ensures memory { IfErr result (λ e. e ≡ RunError.Memory) }
{
    match try_load(alloc, host, file) {
        Ok(found) => Ok(after_load(alloc, state, name, found)?),
        Err(_) => Err(RunError::Memory),
    }
}

// Loads a file whose name was tested, and brings its lines.
fn load_lines<H: Host>(
    alloc: Global,
    state: &mut SessionState,
    host: &mut H,
    name: &[u8],
) -> Result<AskResult, RunError>
    requires { source_fault state.old name.now ≡ None }
    ensures ran { Ran H.world host.old host.new
        (λ es. Goes (sourced state.old name.now None) es (in_play (after_asks state.new) result)) }
    ensures brings { OnlyBrings state.old state.new }
    ensures desk { OnlyFrames state.old state.new }
    ensures goes_on { IfOk result EndsNoRun }
    ensures memory { IfErr result (λ e. e ≡ RunError.Memory) }
{
    let file = placed(alloc, state.here.bytes(), name)?;
    load_source(alloc, state, host, name, file.bytes())
}

/// Loads a file and brings its lines, unless something stands in the way.
pub(crate) fn source<H: Host>(
    alloc: Global,
    state: &mut SessionState,
    host: &mut H,
    name: &[u8],
) -> Result<AskResult, RunError>
    ensures ran { Ran H.world host.old host.new
        (λ es. Goes (sourced state.old name.now (source_fault state.old name.now)) es
        (in_play (after_asks state.new) result)) }
    ensures brings { OnlyBrings state.old state.new }
    ensures desk { OnlyFrames state.old state.new }
    ensures goes_on { IfOk result EndsNoRun }
    ensures memory { IfErr result (λ e. e ≡ RunError.Memory) }
{
    match source_fault(alloc, state, name)? {
        Some(line) => Ok(AskResult::Refused { line }),
        None => load_lines(alloc, state, host, name),
    }
}
