// The start-up files.
ghost use Rattle.std.specs.Prelude.{IfErr};
ghost use Rattle.host_port.specs.Ran.{Ran};
ghost use Rattle.session_play.specs.Play.{Go, Goes};
ghost use Rattle.session_state.specs.States.{IsState, IsSession, line_ended};
ghost use Rattle.mailx_session.specs.Startup.{startup_play, StartupGoes, WaitsInStartup};
ghost use Rattle.session_state.specs.Answers.{in_play, LineCaused, IsNoDiskFault};

use crate::fetching::{Fetching, Stage};
use crate::lines::waiting_lines;
use activities::drive;
use host_port::Host;
use session_state::{RunError, SessionState};
use std::alloc::Global;

// Loads a start-up file, or prints what is wrong with it.
fn load_startup<H: Host>(
    alloc: Global,
    state: &mut SessionState,
    host: &mut H,
    name: &[u8],
) -> Result<(), RunError>
    requires { IsSession state.old }
    ensures ran { Ran H.world host.old host.new
        (λ es. Goes (startup_play state.old name.now) es (in_play (λ u. Go state.new) result)) }
    ensures no_disk { IfErr result IsNoDiskFault }
    ensures waits { WaitsInStartup state.new }
    ensures state { IsState state.new }
    ensures cause { LineCaused (H.world.counts host.old) (H.world.counts host.new) result }
{
    let mut fetching = Fetching::new(alloc);
    let first = fetching.load(alloc, state, Stage::ForStart, name)?;
    match drive(alloc, state, host, &mut fetching, first) {
        Ok(_) => Ok(()),
        Err(error) => Err(error),
    }
}

/// Loads a start-up file and carries out its lines, none of which ends the run.
pub(crate) fn startup_file<H: Host>(
    alloc: Global,
    state: &mut SessionState,
    host: &mut H,
    name: &[u8],
) -> Result<(), RunError>
    requires { IsSession state.old }
    ensures ran { Ran H.world host.old host.new
        (λ es. StartupGoes state.old name.now es (in_play (λ u. Go (line_ended state.new)) result)) }
    ensures state { IsState state.new }
    ensures no_disk { IfErr result IsNoDiskFault }
    ensures cause { LineCaused (H.world.counts host.old) (H.world.counts host.new) result }
{
    match load_startup(alloc, state, host, name) {
        Ok(()) => match waiting_lines(alloc, state, host) {
            Ok(_) => Ok(()),
            Err(error) => Err(error),
        },
        Err(error) => Err(error),
    }
}
