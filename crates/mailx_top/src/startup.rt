// The start-up files, before the folder is opened.
ghost use Rattle.std.specs.Prelude.{◌≡◌, ◌∷◌, List, ℕ, [], IfOk};
ghost use Rattle.host_port.specs.Ran.{Ran};
ghost use Rattle.session_play.specs.Play.{Play, Caused};
ghost use Rattle.session_state.specs.States.{IsSession};
ghost use Rattle.mailx_top.specs.declared.environment.Environment.{Environment};
ghost use Rattle.mailx_top.specs.Meaning.{Preparing, LeadsTo, after_file, after_files, files_with, system_file};
ghost use Rattle.mailx_top.specs.Words.{Start};

use crate::session::stop_of;
use host_port::Host;
use mail_text::{Memory, Text};
use mailx_session::Session;
use session_play::Stop;
use std::alloc::Global;

/// The start-up file of the system.
const SYSTEM_FILE: &[u8] = b"/etc/mail.rc";

// Reads a start-up file, and carries out its lines.
fn read_file<H: Host>(host: &mut H, session: &mut Session, name: &[u8]) -> Result<(), Stop>
    ensures ran { (env : Environment) → (start : Start) → (names : List (List ℕ)) → Ran H.world host.old host.new
        (λ es. LeadsTo env (Preparing start session.old (name.now ∷ names)) es
        (after_file start names session.new result)) }
    ensures rests { IsSession session.new }
    ensures cause { Caused (H.world.counts host.old) (H.world.counts host.new) result }
{
    match session.startup(name, host) {
        Ok(()) => Ok(()),
        Err(error) => Err(stop_of(&error)),
    }
}

// Reads the start-up file of the system, and then the user's.
fn read_both<H: Host>(host: &mut H, session: &mut Session, own: &[u8]) -> Result<(), Stop>
    ensures ran { (env : Environment) → (start : Start) → Ran H.world host.old host.new
        (λ es. LeadsTo env (Preparing start session.old (system_file ∷ own.now ∷ [])) es
        (after_files start session.new result)) }
    ensures cause { Caused (H.world.counts host.old) (H.world.counts host.new) result }
{
    match read_file(host, session, SYSTEM_FILE) {
        Ok(()) => read_file(host, session, own),
        Err(cause) => Err(cause),
    }
}

// Reads the start-up files: the system's, unless it is passed over, and the user's.
fn read_named<H: Host>(
    host: &mut H,
    session: &mut Session,
    no_system_file: bool,
    own: &[u8],
) -> Result<(), Stop>
    ensures ran { (env : Environment) → (start : Start) → Ran H.world host.old host.new
        (λ es. LeadsTo env (Preparing start session.old (files_with no_system_file own.now)) es
        (after_files start session.new result)) }
    ensures cause { Caused (H.world.counts host.old) (H.world.counts host.new) result }
{
    if no_system_file {
        read_file(host, session, own)
    } else {
        read_both(host, session, own)
    }
}

// The name of the user's start-up file.
fn own_file(alloc: Global, session: &Session) -> Result<Text, Memory>
    ensures { IfOk result (λ name. name ≡ session.now.desk.places.rc) }
{
    Text::copy(alloc, session.desk().places.rc.bytes())
}

/// Reads the start-up files, that of the system unless it is passed over, and carries out their lines. The folder is
/// opened then.
pub(crate) fn read_files<H: Host>(
    alloc: Global,
    host: &mut H,
    no_system_file: bool,
    session: &mut Session,
) -> Result<(), Stop>
    ensures ran { (env : Environment) → (start : Start) → Ran H.world host.old host.new
        (λ es. LeadsTo env (Preparing start session.old (files_with no_system_file session.old.desk.places.rc)) es
        (after_files start session.new result)) }
    ensures cause { Caused (H.world.counts host.old) (H.world.counts host.new) result }
{
    match own_file(alloc, session) {
        Ok(own) => read_named(host, session, no_system_file, own.bytes()),
        Err(Memory) => Err(Stop::Memory),
    }
}
