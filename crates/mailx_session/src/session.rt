// A session and its lines.
ghost use Rattle.std.specs.Prelude.{◌≡◌, ◌≢◌, true, false, List, ℕ, Ok, Err, IfOk, IfErr, OnOk, OnErr};
ghost use Rattle.host_port.specs.Ran.{Ran};
ghost use Rattle.session_state.specs.declared.status.Status.{Status};
ghost use Rattle.mailx_vars.specs.Environment.{knows_user};
ghost use Rattle.command_desk.specs.Desks.{IsDesk};
ghost use Rattle.read_commands.specs.declared.origin.Origin.{Origin};
ghost use Rattle.read_commands.specs.Origins.{commanded};
ghost use Rattle.session_asks.specs.Beginning.{composing, with_new_draft};
ghost use Rattle.session_state.specs.States.{IsState, IsSession, is_drafting, line_ended};
ghost use Rattle.mailx_session.specs.Drafting.{released};
ghost use Rattle.mailx_session.specs.Leaving.{InputEnds};
ghost use Rattle.mailx_session.specs.Rounds.{LineGoes};
ghost use Rattle.mailx_session.specs.Safe.{Composing, Typed, Starting, Finishing, IsSafeCall};
ghost use Rattle.mailx_session.specs.Startup.{StartupGoes};
ghost use Rattle.mailx_session.specs.Taking.{RefusesLine};
ghost use Rattle.session_state.specs.Statuses.{IsLineEnd};
ghost use Rattle.session_play.specs.Play.{Play, Go, Goes, Last};
ghost use Rattle.session_asks.specs.Asks.{brings_lines};
ghost use Rattle.session_state.specs.Answers.{next_of, in_play, LineCaused, EndsByLine};
ghost use Rattle.mailx_session.specs.Sessions.{StaysAtEnd};
ghost use Rattle.session_asks.specs.Openings.{first_state, greeting, Opens};

use crate::leaving::end_input;
use crate::lines::input_line;
use crate::startup::startup_file;
use draft_text::Draft;
use host_port::Host;
use mail_text::{Memory, Text};
use mailx_vars::Places;
use mbox_scan::Folder;
use rc_conditionals::Mode;
use read_commands::Desk;
use session_asks::{compose, first_state, greeting, opening_of, put_folder};
use session_state::{Flow, RunError, SessionState, Status, end_line};
use std::alloc::Global;
use std::marker::Model;

/// A session between two lines of the input. Contracts see it as its state, which is valid.
///
/// The calls over a host have a clause `safe`: wherever the call stops, what recovery would make of the files is what the
/// commits accepted so far give. Its premise is that the disk just before the call is sound and carries nothing of the
/// session's token, and that others do only what is lawful during the call. So is the disk that a run begins on; and
/// wherever the session goes on the clause says it of the disk before the next call.
#[derive(Drop)]
pub struct Session {
    state: SessionState,
    alloc: Global,
}

impl Model for Session {
    ghost use Rattle.session_state.specs.declared.state.SessionState.{SessionState};
    ghost use Rattle.session_state.specs.States.{IsSession};

    ghost Value = { SessionState };

    ghost view = { λ s. s.state };

    ghost invariant = { λ s. IsSession s.state };
}

impl Session {
    /// A session with an empty folder and the variables that are set at the start, in a run of this mode and token;
    /// `by_recipient` is the flag `-F`, and `folder` the working folder, empty if it isn't known. HOME and LOGNAME are set
    /// in the environment.
    pub fn new(
        alloc: Global,
        folder: &[u8],
        pairs: &[(Text, Text)],
        mode: Mode,
        terminal: bool,
        by_recipient: bool,
        token: u64,
    ) -> Result<Session, Memory>
        requires { knows_user pairs.now ≡ true }
        ensures { IfOk result (λ session. session ≡ first_state folder.now pairs.now mode terminal by_recipient token) }
    {
        match Places::read(alloc, pairs)? {
            Some(places) => Ok(Session {
                state: first_state(alloc, folder, places, mode, terminal, by_recipient, token)?,
                alloc,
            }),
            None => Err(Memory),
        }
    }

    /// Opens a folder that was loaded from the file of this name.
    pub fn open(&mut self, name: Text, folder: Folder) -> Result<(), Memory>
        ensures ok { OnOk result (Opens self.old name folder self.new) }
        ensures err { OnErr result (self.new ≡ self.old) }
    {
        let opening = opening_of(self.alloc, &self.state, name, folder)?;
        put_folder(
            &mut self.state.desk,
            opening.size,
            opening.folder,
            opening.shown,
        );
        Ok(())
    }

    /// Begins the draft of send mode, once `Subject: ` was printed, if the next line is the subject.
    pub fn compose<H: Host>(&mut self, draft: &Draft, host: &mut H) -> Result<(), RunError>
        ensures ran { Ran H.world host.old host.new
            (λ es. Goes (composing self.old draft.now) es (in_play (λ u. self.new) result)) }
        ensures begun { OnOk result (self.new ≡ with_new_draft self.old draft.now) }
        ensures cause { LineCaused (H.world.counts host.old) (H.world.counts host.new) result }
        ensures safe { IsSafeCall H.world host.old host.new self.old (Composing self.old draft.now)
            (in_play (λ u. Go self.new) result) }
    {
        // the clause `safe` speaks of a token of 64 bits
        // the clause `safe` needs its bound of 64 bits
        let _token = self.state.token;
        let begun = compose(self.alloc, &mut self.state, host, draft);
        end_line(self.alloc, &mut self.state);
        begun
    }

    /// What is printed at the start: with `header` set the opening line and the page of the current message.
    pub fn greeting(&self) -> Result<Text, Memory>
        ensures { IfOk result (λ text. text ≡ greeting self.now.desk) }
    {
        greeting(self.alloc, &self.state.desk)
    }

    /// The desk.
    pub fn desk(&self) -> &Desk
        ensures desk { result.now ≡ self.now.desk }
        ensures valid { IsDesk self.now.desk }
    {
        &self.state.desk
    }

    /// What the session knows between two lines.
    pub fn state(&self) -> &SessionState
        ensures state { result.now ≡ self.now }
        ensures valid { IsSession self.now }
    {
        &self.state
    }

    /// Reads one start-up file and carries out its lines, of which each must be one that a start-up file may hold. An
    /// absent file is passed over; what is wrong with another is printed. None of its lines ends the run, and no fault
    /// of the disk cuts one off.
    pub fn startup<H: Host>(&mut self, name: &[u8], host: &mut H) -> Result<(), RunError>
        ensures ran { Ran H.world host.old host.new
            (λ es. StartupGoes self.old name.now es (in_play (λ u. Go self.new) result)) }
        ensures before { IsSession self.old }
        ensures after { IsSession self.new }
        ensures no_disk { IfErr result (λ error. error ≢ RunError.Disk) }
        ensures cause { LineCaused (H.world.counts host.old) (H.world.counts host.new) result }
        ensures safe { IsSafeCall H.world host.old host.new self.old (Starting self.old name.now)
            (in_play (λ u. Go self.new) result) }
    {
        // the clause `safe` needs its bound of 64 bits
        let _token = self.state.token;
        let result = startup_file(self.alloc, &mut self.state, host, name);
        end_line(self.alloc, &mut self.state);
        result
    }

    /// Whether a draft is open, so that the next line of the input is one of it.
    pub fn drafting(&self) -> bool
        ensures { result ≡ is_drafting self.now }
    {
        self.state.draft.is_some()
    }

    /// Takes one input line, without its line feed, be it a command, a line of a definition or a line of a draft, and
    /// carries out the lines that it brings too. If it is no line of a draft and brings none, the state changes only
    /// if the run goes on; it doesn't if the line is refused. A draft that refuses its line is as it was, and waits for
    /// no answer; nothing else changes, and the session goes on.
    pub fn step<H: Host>(&mut self, line: &[u8], host: &mut H) -> Result<Flow, RunError>
        ensures ran { Ran H.world host.old host.new
            (λ es. LineGoes self.old line.now es (in_play (next_of self.new) result)) }
        ensures refused { is_drafting self.old ≡ false → (fault : List ℕ)
            → commanded Origin.Input self.old.desk line.now ≡ Err fault → self.new ≡ self.old }
        ensures goes_on { is_drafting self.old ≡ false → (fault : List ℕ)
            → commanded Origin.Input self.old.desk line.now ≡ Err fault → IfOk result (λ flow. flow ≡ Flow.Go) }
        ensures escape { RefusesLine self.old line.now → self.new ≡ released self.old }
        ensures escape_goes_on { RefusesLine self.old line.now → IfOk result (λ flow. flow ≡ Flow.Go) }
        ensures done { IfOk result EndsByLine }
        ensures end { is_drafting self.old ≡ false
            → brings_lines (commanded Origin.Input self.old.desk line.now) ≡ false
            → IfOk result (StaysAtEnd self.old self.new) }
        ensures err { is_drafting self.old ≡ false
            → brings_lines (commanded Origin.Input self.old.desk line.now) ≡ false
            → OnErr result (self.new ≡ self.old) }
        ensures cause { LineCaused (H.world.counts host.old) (H.world.counts host.new) result }
        ensures safe { IsSafeCall H.world host.old host.new self.old (Typed self.old line.now)
            (in_play (next_of self.new) result) }
    {
        // the clause `safe` needs its bound of 64 bits
        let _token = self.state.token;
        let result = input_line(self.alloc, &mut self.state, host, line);
        end_line(self.alloc, &mut self.state);
        result
    }

    /// The end of the input. While a draft is open it ends, and the lines that wait are carried out; then the folder is
    /// left, as by `quit`, and the run ends. If the quit is refused its line is printed.
    pub fn end<H: Host>(&mut self, host: &mut H) -> Result<Status, RunError>
        ensures ran { Ran H.world host.old host.new
            (λ es. InputEnds self.old es (in_play (λ (e : Status). e) result)) }
        ensures idle { line_ended self.old ≡ self.old }
        ensures stays { is_drafting self.old ≡ false → self.new ≡ self.old }
        ensures end { IfOk result IsLineEnd }
        ensures cause { LineCaused (H.world.counts host.old) (H.world.counts host.new) result }
        ensures safe { IsSafeCall H.world host.old host.new self.old (Finishing self.old)
            (in_play (λ (e : Status). Last e) result) }
    {
        // the clause `safe` needs its bound of 64 bits
        let _token = self.state.token;
        end_input(self.alloc, &mut self.state, host)
    }
}
