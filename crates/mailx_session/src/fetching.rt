// What is fetched from outside: what the draft that is open needs, and start-up files.
//
//     Asking -> ForDraft, ForStart -> Telling
//
// A draft is given what comes; the lines of a start-up file wait. What is wrong is printed.
ghost use Rattle.std.specs.Prelude.{◌≡◌, ◌++◌, ◌<◌, List, ℕ, IfOk, OnErr, OnOk};
ghost use Rattle.mail_text.specs.Lines.{with_feed};
ghost use Rattle.session_play.specs.Steps.{refused};
ghost use Rattle.command_desk.specs.Desks.{IsDesk};
ghost use Rattle.session_asks.specs.Beginning.{view_as};
ghost use Rattle.session_state.specs.declared.state.SessionState.{SessionState};
ghost use Rattle.session_state.specs.declared.status.Status.{Status};
ghost use Rattle.session_state.specs.States.{IsState};
ghost use Rattle.mailx_session.specs.Drafting.{after_fetch, answered, needed, tilde, told};
ghost use Rattle.mailx_session.specs.Fetching.{loaded_by, most, most_at, AwaitsText, Changes, IsFetched, LeadsTo};
ghost use Rattle.mailx_session.specs.Startup.{after_startup, with_startup};
ghost use Rattle.mailx_session.specs.Taking.{AwaitsAll, IsAwaited, IsEscapeFault, TookAnswer};

use activities::{Activity, Answer, Call, Turn};
use command_desk::{expanded, line_of, list_line};
use compose_tilde::{Answer as Given, Compose, ComposeError, Need};
use mail_text::{Memory, Text};
use mailx_vars::is_short_name;
use read_commands::{Desk, Origin, Refusal};
use session_asks::view_as;
use session_play::Found;
use session_state::{Flow, Frame, FrameKind, SessionState, placed};
use std::alloc::Global;

/// What was asked for last.
#[derive(Clone, Copy)]
pub(crate) enum Stage {
    /// Nothing yet.
    Asking,
    /// What the draft needs.
    ForDraft,
    /// A start-up file.
    ForStart,
    /// To print the last line.
    Telling,
}

/// What is fetched.
#[derive(Drop)]
pub(crate) struct Fetching {
    pub stage: Stage,
    /// How the file is said that is loaded.
    pub name: Text,
}

// An escape as its faults name it, and what is wrong with it, as a line.
fn tilde_line(alloc: Global, letters: &[u8], fault: &[u8]) -> Result<Text, Memory>
    ensures { IfOk result (λ line. line ≡ with_feed (tilde letters.now ++ fault.now)) }
{
    let mut word = Text::copy(alloc, b"~")?;
    word.push(letters)?;
    line_of(alloc, word.bytes(), fault)
}

/// The line that refuses an escape.
pub(crate) fn escape_fault(alloc: Global, error: &ComposeError) -> Result<Text, Memory>
    ensures { IfOk result (IsEscapeFault error.now) }
{
    match error {
        ComposeError::Unknown { letter: None } => tilde_line(alloc, b"", b": unknown escape"),
        ComposeError::Unknown {
            letter: Some(letter),
        } => tilde_line(alloc, &[*letter], b": unknown escape"),
        ComposeError::BadArguments { letter } => tilde_line(alloc, &[*letter], b": bad arguments"),
        ComposeError::NotSending => line_of(alloc, b"", b"not while sending"),
        ComposeError::TooMuch => line_of(alloc, b"", b"too much output"),
        ComposeError::List(error) => list_line(alloc, error),
        ComposeError::Memory => Err(Memory),
    }
}

// The draft, if one is open, takes an answer that it waits for.
fn take_answer(
    desk: &Desk,
    draft: &mut Option<Compose>,
    answer: Given,
) -> Result<Need, ComposeError>
    requires desk { IsDesk desk.now }
    requires awaited { IsAwaited draft.old answer }
    ensures { TookAnswer result draft.old answer draft.new }
{
    match draft {
        Some(compose) => compose.answer(answer, &view_as(desk)),
        None => Ok(Need::More),
    }
}

// Lets the lines of a start-up file wait.
fn push_startup(state: &mut SessionState, text: Text) -> Result<(), Memory>
    ensures ok { OnOk result (state.new ≡ with_startup state.old text) }
    ensures err { OnErr result (state.new ≡ state.old) }
{
    let nested = state.desk.conditions.depth();
    let frame = Frame::new(Origin::Startup, FrameKind::Startup, nested, text);
    state.frames.push(frame)
}

impl Fetching {
    /// Nothing is asked for yet.
    pub(crate) fn new(alloc: Global) -> Fetching
        ensures { 1 < most result }
    {
        Fetching {
            stage: Stage::Asking,
            name: Text::new(alloc),
        }
    }

    // Prints the last line.
    fn say_and_end(&mut self, line: Text) -> Turn
        requires { 0 < most self.old }
        ensures { (s : SessionState) → LeadsTo (most self.old) (refused s line) self.new s result }
    {
        self.stage = Stage::Telling;
        Turn::Ask(Call::Say(line))
    }

    // Prints what the draft has to say.
    fn say_of(&mut self, need: Need) -> Turn
        requires { 0 < most self.old }
        ensures { (s : SessionState) → LeadsTo (most self.old) (told s need) self.new s result }
    {
        match need {
            Need::Say(bytes) => self.say_and_end(bytes),
            Need::More
            | Need::Load(_)
            | Need::Dead
            | Need::Child { .. }
            | Need::Edit { .. }
            | Need::Command(_)
            | Need::Put { .. }
            | Need::Done
            | Need::Quit
            | Need::Drop => Turn::End(Flow::Go),
        }
    }

    // Prints what is wrong with the file.
    fn refuse(&mut self, alloc: Global, fault: &[u8]) -> Result<Turn, Memory>
        requires { 0 < most self.old }
        ensures { (s : SessionState)
            → IfOk result (LeadsTo (most self.old) (refused s (with_feed (self.old.name ++ fault.now))) self.new s) }
    {
        let line = line_of(alloc, self.name.bytes(), fault)?;
        Ok(self.say_and_end(line))
    }

    /// Loads the file of this name, or prints what is wrong with its name.
    pub(crate) fn load(
        &mut self,
        alloc: Global,
        state: &SessionState,
        stage: Stage,
        name: &[u8],
    ) -> Result<Turn, Memory>
        requires rank { 1 < most self.old }
        requires next { most_at stage ≡ 1 }
        requires awaited { AwaitsText stage state.now }
        ensures { IfOk result (LeadsTo (most self.old) (loaded_by stage state.now name.now) self.new state.now) }
    {
        let file = placed(alloc, state.here.bytes(), name)?;
        self.name = Text::copy(alloc, name)?;
        if is_short_name(file.bytes()) {
            self.stage = stage;
            Ok(Turn::Ask(Call::Load(file)))
        } else {
            self.refuse(alloc, b": bad name")
        }
    }

    /// Asks for what the draft needs.
    pub(crate) fn ask(
        &mut self,
        alloc: Global,
        state: &SessionState,
        need: Need,
    ) -> Result<Turn, Memory>
        requires fetched { IsFetched need }
        requires rank { 1 < most self.old }
        requires awaited { AwaitsAll state.now.draft need }
        ensures { IfOk result (LeadsTo (most self.old) (needed state.now need) self.new state.now) }
    {
        match need {
            Need::Load(word) => match expanded(alloc, &state.desk, word.bytes()) {
                Ok(name) => self.load(alloc, state, Stage::ForDraft, name.bytes()),
                Err(Refusal::Fault { line }) => Ok(self.say_and_end(line)),
                Err(Refusal::Memory) => Err(Memory),
            },
            Need::Dead => {
                let name = state.desk.places.dead.bytes();
                self.load(alloc, state, Stage::ForDraft, name)
            }
            Need::Child { command, input } => {
                self.stage = Stage::ForDraft;
                Ok(Turn::Ask(Call::Shell { command, input }))
            }
            Need::Edit { command, text } => {
                self.stage = Stage::ForDraft;
                Ok(Turn::Ask(Call::Edit { command, text }))
            }
            Need::Say(bytes) => Ok(self.say_and_end(bytes)),
            Need::More
            | Need::Command(_)
            | Need::Put { .. }
            | Need::Done
            | Need::Quit
            | Need::Drop => Ok(Turn::End(Flow::Go)),
        }
    }

    // Gives an answer to the draft.
    fn answer_draft(
        &mut self,
        alloc: Global,
        state: &mut SessionState,
        answer: Given,
    ) -> Result<Turn, Memory>
        requires state { IsState state.old }
        requires rank { 0 < most self.old }
        requires awaited { IsAwaited state.old.draft answer }
        ensures leads { IfOk result (LeadsTo (most self.old) (answered state.old answer) self.new state.new) }
        ensures changes { Changes state.old state.new }
    {
        match take_answer(&state.desk, &mut state.draft, answer) {
            Ok(need) => Ok(self.say_of(need)),
            Err(error) => {
                let line = escape_fault(alloc, &error)?;
                Ok(self.say_and_end(line))
            }
        }
    }

    // What follows the load of a file for the draft.
    fn after_fetch(
        &mut self,
        alloc: Global,
        state: &mut SessionState,
        found: Option<Found>,
    ) -> Result<Turn, Memory>
        requires state { IsState state.old }
        requires rank { 0 < most self.old }
        requires awaited { (bytes : List ℕ) → IsAwaited state.old.draft (Given.Loaded bytes) }
        ensures leads { IfOk result
            (LeadsTo (most self.old) (after_fetch state.old self.old.name found) self.new state.new) }
        ensures changes { Changes state.old state.new }
    {
        match found {
            Some(
                Found::Bytes {
                    bytes: Some(text),
                    ..
                },
            ) => self.answer_draft(alloc, state, Given::Loaded(text)),
            Some(Found::Bytes { bytes: None, .. }) => self.refuse(alloc, b": no such file"),
            Some(Found::TooLarge { .. }) => self.refuse(alloc, b": too large"),
            None => self.refuse(alloc, b": cannot be read"),
        }
    }

    // What follows the load of a start-up file: its lines wait, and an absent one is passed over.
    fn after_startup(
        &mut self,
        alloc: Global,
        state: &mut SessionState,
        found: Option<Found>,
    ) -> Result<Turn, Memory>
        requires { 0 < most self.old }
        ensures leads { IfOk result
            (LeadsTo (most self.old) (after_startup state.old self.old.name found) self.new state.new) }
        ensures changes { Changes state.old state.new }
    {
        match found {
            Some(
                Found::Bytes {
                    bytes: Some(text),
                    ..
                },
            ) => {
                push_startup(state, text)?;
                Ok(Turn::End(Flow::Go))
            }
            Some(Found::Bytes { bytes: None, .. }) => Ok(Turn::End(Flow::Go)),
            Some(Found::TooLarge { .. }) => self.refuse(alloc, b": too large"),
            None => self.refuse(alloc, b": cannot be read"),
        }
    }
}

impl Activity for Fetching {
    ghost use Rattle.mailx_session.specs.Fetching.{follows, most, Changes, Ends, Takes, changes_joined, changes_stay, changes_valid};

    ghost follows = { follows };

    ghost takes = { Takes };

    ghost most = { most };

    ghost ends = { Ends };

    ghost changes = { Changes };

    fn take(
        &mut self,
        alloc: Global,
        state: &mut SessionState,
        answer: Answer,
    ) -> Result<Turn, Memory> {
        match answer {
            Answer::Loaded(found) => match self.stage {
                Stage::ForStart => self.after_startup(alloc, state, found),
                Stage::Asking | Stage::ForDraft | Stage::Telling => {
                    self.after_fetch(alloc, state, found)
                }
            },
            Answer::Ran(Some(answer)) => self.answer_draft(alloc, state, Given::Ran(answer)),
            Answer::Ran(None) => {
                let line = line_of(alloc, b"", b"command could not be run")?;
                Ok(self.say_and_end(line))
            }
            Answer::Edited(Some(answer)) => self.answer_draft(alloc, state, Given::Edited(answer)),
            Answer::Edited(None) => {
                let line = line_of(alloc, b"", b"editor could not be run")?;
                Ok(self.say_and_end(line))
            }
            Answer::Said | Answer::Committed(_) | Answer::Sent(_) | Answer::Time(_) => {
                Ok(Turn::End(Flow::Go))
            }
        }
    }

    ghost stays = { changes_stay };

    ghost joins = { changes_joined };

    ghost valid = { changes_valid };
}
