// What becomes of a draft that is done, or that is given up with its body kept.
//
//     Dating -> Recording -> Sending -> Telling
//        \          |           |          ^
//         +---------+-----> Keeping        |
//                               v          |
//     GivingUp ------------> Saving -------+
// A stage says which answer is waited for; what follows it is one word of specs/Sending, and specs/Ending says which.
ghost use Rattle.std.specs.Prelude.{◌≡◌, ◌++◌, ◌∷◌, ◌<◌, [], ℕ, None, IfOk};
ghost use Rattle.host_port.specs.Ran.{Ran};
ghost use Rattle.mail_dates.specs.Clock.{IsPrintable};
ghost use Rattle.session_play.specs.Play.{Goes};
ghost use Rattle.session_play.specs.Steps.{refused};
ghost use Rattle.command_desk.specs.Answers.{Means};
ghost use Rattle.send_rules.specs.Addressing.{addressees};
ghost use Rattle.send_rules.specs.Lines.{names_refused, sender_ended};
ghost use Rattle.send_rules.specs.Recording.{dead, recorded};
ghost use Rattle.session_state.specs.declared.state.SessionState.{SessionState};
ghost use Rattle.session_state.specs.States.{IsState, KeepsButDraft, KeepsButOutcome, with_outcome};
ghost use Rattle.session_state.specs.Answers.{after_asks, in_play, next_of, LineCaused, EndsByAsk, EndsByLine};
ghost use Rattle.draft_sending.specs.Sending.{addressing, after_record, after_sender, after_dead_letter, ended_draft, letter_of, lost, not_run, posting, quit_draft, recording, sending, text_of, unsent};
ghost use Rattle.draft_sending.specs.Ending.{begun, most, IsDated, LeadsTo};

use activities::{Activity, Answer, Call, Turn, drive};
use draft_text::{Draft, mbox_text, message_text};
use folder_change::{Change, change_name};
use folder_commands::receipt;
use host_port::Host;
use mail_dates::Moment;
use mail_text::{Items, Memory, Text};
use read_commands::Refusal;
use send_rules::{
    Recipients, addressees, dead, names_refused, recorded, sender_ended, sender_not_run,
    too_many_recipients,
};
use sender_port::SendError;
use session_state::{AskResult, Flow, RunError, SendOutcome, SessionState, not_sent};
use std::alloc::Global;
use std::mem;

/// A draft, and the moment at which it was done.
#[derive(Drop)]
pub(crate) struct DatedDraft {
    pub draft: Draft,
    pub moment: Moment,
}

/// What was asked for last.
#[derive(Clone, Copy)]
pub(crate) enum Stage {
    /// The moment, of a draft that is done.
    Dating,
    /// The moment, of one that is given up.
    GivingUp,
    /// The record.
    Recording,
    /// The sender.
    Sending,
    /// To print what stands in the way; then the text is kept.
    Keeping,
    /// The dead letter.
    Saving,
    /// To print the last line.
    Telling,
}

/// The end of a draft.
#[derive(Drop)]
pub(crate) struct Ending {
    pub stage: Stage,
    /// The draft; its moment counts once it is known.
    pub letter: DatedDraft,
    /// The file that it is recorded in, if it is one of its own.
    pub file: Option<Text>,
    /// Whom it is sent to, until it is.
    pub names: Items<Text>,
    /// The file of its dead letter.
    pub dead: Text,
}

// The text of a letter in a mailbox, from the user.
fn text_of(alloc: Global, state: &SessionState, letter: &DatedDraft) -> Result<Text, Memory>
    requires { IsPrintable letter.now.moment }
    ensures { IfOk result (λ text. text ≡ text_of state.now letter.now) }
{
    let user = state.desk.places.user.bytes();
    mbox_text(alloc, &letter.draft, user, letter.moment)
}

// The sender's output, and the line of its status.
fn ended_line(alloc: Global, status: i32, output: Text) -> Result<Text, Memory>
    ensures { IfOk result (λ line. line ≡ output ++ sender_ended status) }
{
    let mut line = output;
    line.push(sender_ended(alloc, status)?.bytes())?;
    Ok(line)
}

// One change alone.
fn one(alloc: Global, change: Change) -> Result<Items<Change>, Memory>
    ensures { IfOk result (λ changes. changes ≡ change ∷ []) }
{
    let mut changes = Items::new(alloc);
    changes.push(change)?;
    Ok(changes)
}

impl Ending {
    // The end of a draft that begins so.
    fn new(alloc: Global, stage: Stage, draft: Draft, file: Option<Text>) -> Ending
        ensures { result ≡ begun stage draft file }
    {
        let moment = Moment {
            seconds: 0,
            offset: 0,
        };
        Ending {
            stage,
            letter: DatedDraft { draft, moment },
            file,
            names: Items::new(alloc),
            dead: Text::new(alloc),
        }
    }

    // Prints the last line.
    fn say_and_end(&mut self, line: Text) -> Turn
        requires { 0 < most self.old }
        ensures { (s : SessionState) → LeadsTo (most self.old) (refused s line) self.new s result }
    {
        self.stage = Stage::Telling;
        Turn::Ask(Call::Say(line))
    }

    // Prints why the draft isn't sent, with what became of it, and then keeps its text.
    fn keep_unsent(&mut self, state: &mut SessionState, outcome: SendOutcome, line: Text) -> Turn
        requires { IsDated 2 self.old }
        ensures leads { LeadsTo (most self.old)
            (unsent (with_outcome state.old outcome) self.old.letter line) self.new state.new result }
        ensures keeps { KeepsButOutcome state.old state.new }
    {
        state.outcome = outcome;
        self.stage = Stage::Keeping;
        Turn::Ask(Call::Say(line))
    }

    // Keeps the text as a dead letter, if one is kept.
    fn save_dead_letter(&mut self, alloc: Global, state: &SessionState) -> Result<Turn, Memory>
        requires { IsDated 1 self.old }
        ensures { IfOk result (LeadsTo (most self.old) (lost state.now self.old.letter) self.new state.now) }
    {
        let text = text_of(alloc, state, &self.letter)?;
        match dead(alloc, &state.desk, text.bytes())? {
            Some(change) => {
                let name = Text::copy(alloc, change_name(&change))?;
                let changes = one(alloc, change)?;
                self.dead = name;
                self.stage = Stage::Saving;
                Ok(Turn::Ask(Call::Commit(changes)))
            }
            None => Ok(Turn::End(Flow::Go)),
        }
    }

    // What follows the commit of the dead letter.
    fn after_dead_letter(
        &mut self,
        alloc: Global,
        state: &mut SessionState,
        asked: AskResult,
    ) -> Result<Turn, Memory>
        requires rank { 0 < most self.old }
        requires end { EndsByAsk asked }
        ensures leads { IfOk result
            (LeadsTo (most self.old) (after_dead_letter state.old self.old.dead (after_asks state.old asked))
            self.new state.new) }
        ensures keeps { KeepsButOutcome state.old state.new }
    {
        match asked {
            AskResult::On | AskResult::Over => {
                let line = receipt(alloc, self.dead.bytes(), b"Dead", 1)?;
                Ok(self.say_and_end(line))
            }
            AskResult::Refused { line } => {
                state.outcome = SendOutcome::Refused;
                Ok(self.say_and_end(line))
            }
            AskResult::Ended(status) => Ok(Turn::End(Flow::End(status))),
        }
    }

    // Gives the message to the sender.
    fn send(&mut self, alloc: Global, state: &SessionState) -> Result<Turn, Memory>
        requires dated { IsDated 3 self.old }
        requires names { names_refused self.old.names ≡ None }
        ensures { IfOk result (LeadsTo (most self.old) (sending state.now self.old.letter self.old.names) self.new state.now) }
    {
        let message = message_text(alloc, &self.letter.draft, self.letter.moment)?;
        let names = mem::replace(&mut self.names, Items::new(alloc));
        self.stage = Stage::Sending;
        Ok(Turn::Ask(Call::Send { names, message }))
    }

    // The sender could not be run.
    fn not_run(&mut self, alloc: Global, state: &mut SessionState) -> Result<Turn, Memory>
        requires { IsDated 2 self.old }
        ensures leads { IfOk result (LeadsTo (most self.old) (not_run state.old self.old.letter) self.new state.new) }
        ensures keeps { KeepsButOutcome state.old state.new }
    {
        let line = Text::copy(alloc, sender_not_run())?;
        let outcome = not_sent(None, state.outcome);
        Ok(self.keep_unsent(state, outcome, line))
    }

    // What follows the sender.
    fn after_sender(
        &mut self,
        alloc: Global,
        state: &mut SessionState,
        sent: Result<Text, SendError>,
    ) -> Result<Turn, Memory>
        requires { IsDated 2 self.old }
        ensures leads { IfOk result (LeadsTo (most self.old) (after_sender state.old self.old.letter sent) self.new state.new) }
        ensures keeps { KeepsButOutcome state.old state.new }
    {
        match sent {
            Ok(output) => Ok(self.say_and_end(output)),
            Err(SendError::Refused { status, output }) => {
                let line = ended_line(alloc, status, output)?;
                let outcome = not_sent(Some(status), state.outcome);
                Ok(self.keep_unsent(state, outcome, line))
            }
            Err(SendError::Child) => self.not_run(alloc, state),
            Err(SendError::NoRecipients) => self.not_run(alloc, state),
            Err(SendError::NotAnAddress { .. }) => self.not_run(alloc, state),
            Err(SendError::Memory) => self.not_run(alloc, state),
        }
    }

    // What follows the commit of the record: the message is sent, unless that is refused or the run ends.
    fn after_record(
        &mut self,
        alloc: Global,
        state: &mut SessionState,
        asked: AskResult,
    ) -> Result<Turn, Memory>
        requires dated { IsDated 3 self.old }
        requires names { names_refused self.old.names ≡ None }
        requires end { EndsByAsk asked }
        ensures leads { IfOk result (LeadsTo (most self.old)
            (after_record state.old self.old.letter self.old.names (after_asks state.old asked)) self.new state.new) }
        ensures keeps { KeepsButOutcome state.old state.new }
    {
        match asked {
            AskResult::On | AskResult::Over => self.send(alloc, state),
            AskResult::Refused { line } => Ok(self.keep_unsent(state, SendOutcome::Refused, line)),
            AskResult::Ended(status) => Ok(Turn::End(Flow::End(status))),
        }
    }

    // The change that records the draft, if it is to be recorded.
    fn record_of(&self, alloc: Global, state: &SessionState) -> Result<Option<Change>, Refusal>
        requires { IsPrintable self.now.letter.moment }
        ensures { Means result
            (recorded state.now.desk (text_of state.now self.now.letter) state.now.by_recipient self.now.file self.now.names) }
    {
        let text = text_of(alloc, state, &self.letter)?;
        recorded(
            alloc,
            &state.desk,
            text.bytes(),
            state.by_recipient,
            &self.file,
            self.names.items(),
        )
    }

    // Records the draft where it is to be, and then sends it, or prints why that can't be.
    fn check_names(&mut self, alloc: Global, state: &mut SessionState) -> Result<Turn, Memory>
        requires { IsDated 4 self.old }
        ensures leads { IfOk result (LeadsTo (most self.old)
            (posting state.old self.old.file self.old.letter self.old.names (names_refused self.old.names)) self.new state.new) }
        ensures keeps { KeepsButOutcome state.old state.new }
    {
        if let Some(line) = names_refused(alloc, self.names.items())? {
            let outcome = not_sent(None, state.outcome);
            return Ok(self.keep_unsent(state, outcome, line));
        }
        match self.record_of(alloc, state) {
            Ok(Some(change)) => {
                let changes = one(alloc, change)?;
                self.stage = Stage::Recording;
                Ok(Turn::Ask(Call::Commit(changes)))
            }
            Ok(None) => self.send(alloc, state),
            Err(Refusal::Fault { line }) => Ok(self.keep_unsent(
                state,
                SendOutcome::Unrecorded,
                line,
            )),
            Err(Refusal::Memory) => Err(Memory),
        }
    }

    // Sends the draft to those that its names stand for; one with too many is kept as it was written.
    fn expand_names(&mut self, alloc: Global, state: &mut SessionState) -> Result<Turn, Memory>
        requires { IsDated 4 self.old }
        ensures leads { IfOk result (LeadsTo (most self.old) (addressing state.old self.old.file self.old.letter.draft
            self.old.letter.moment (addressees state.old.desk self.old.letter.draft)) self.new state.new) }
        ensures keeps { KeepsButOutcome state.old state.new }
    {
        match addressees(alloc, &state.desk, &self.letter.draft)? {
            Some(Recipients { to, cc, all }) => {
                self.letter.draft.to = to;
                self.letter.draft.cc = cc;
                self.names = all;
                self.check_names(alloc, state)
            }
            None => {
                let line = Text::copy(alloc, too_many_recipients())?;
                let outcome = not_sent(None, state.outcome);
                Ok(self.keep_unsent(state, outcome, line))
            }
        }
    }
}

impl Activity for Ending {
    ghost use Rattle.std.specs.Prelude.{refl};
    ghost use Rattle.session_state.specs.Answers.{EndsByLine};
    ghost use Rattle.session_state.specs.States.{KeepsButOutcome};
    ghost use Rattle.draft_sending.specs.Ending.{follows, most, Takes, keeps-joined, keeps-valid};

    ghost follows = { follows };

    ghost takes = { λ e s a. Takes e a };

    ghost most = { most };

    ghost ends = { EndsByLine };

    ghost changes = { KeepsButOutcome };

    fn take(
        &mut self,
        alloc: Global,
        state: &mut SessionState,
        answer: Answer,
    ) -> Result<Turn, Memory> {
        match self.stage {
            Stage::Dating => {
                self.letter.moment = answer.time();
                self.expand_names(alloc, state)
            }
            Stage::GivingUp => {
                self.letter.moment = answer.time();
                self.save_dead_letter(alloc, state)
            }
            Stage::Recording => self.after_record(alloc, state, answer.asked()),
            Stage::Sending => self.after_sender(alloc, state, answer.sent()),
            Stage::Keeping => self.save_dead_letter(alloc, state),
            Stage::Saving => self.after_dead_letter(alloc, state, answer.asked()),
            Stage::Telling => Ok(Turn::End(Flow::Go)),
        }
    }

    ghost stays = { λ s. refl };

    ghost joins = { keeps-joined };

    ghost valid = { keeps-valid };
}

/// The draft that is open is done: it is recorded where it is to be, and sent, or its text goes to the dead letters.
pub fn end_draft<H: Host>(
    alloc: Global,
    state: &mut SessionState,
    host: &mut H,
) -> Result<Flow, RunError>
    requires { IsState state.old }
    ensures ran { Ran H.world host.old host.new
        (λ es. Goes (ended_draft state.old) es (in_play (next_of state.new) result)) }
    ensures keeps { KeepsButDraft state.old state.new }
    ensures over { state.new.draft ≡ None }
    ensures state { IsState state.new }
    ensures done { IfOk result EndsByLine }
    ensures cause { LineCaused (H.world.counts host.old) (H.world.counts host.new) result }
{
    match state.draft.take() {
        Some(compose) => {
            let file = state.file.take();
            let mut ending = Ending::new(alloc, Stage::Dating, compose.into_draft(), file);
            drive(alloc, state, host, &mut ending, Turn::Ask(Call::Now))
        }
        None => Ok(Flow::Go),
    }
}

/// The draft that is open is given up: one with a body goes to the dead letters.
pub fn quit_draft<H: Host>(
    alloc: Global,
    state: &mut SessionState,
    host: &mut H,
) -> Result<Flow, RunError>
    requires { IsState state.old }
    ensures ran { Ran H.world host.old host.new
        (λ es. Goes (quit_draft state.old) es (in_play (next_of state.new) result)) }
    ensures keeps { KeepsButDraft state.old state.new }
    ensures over { state.new.draft ≡ None }
    ensures state { IsState state.new }
    ensures done { IfOk result EndsByLine }
    ensures cause { LineCaused (H.world.counts host.old) (H.world.counts host.new) result }
{
    match state.draft.take() {
        Some(compose) => {
            state.file = None;
            let draft = compose.into_draft();
            if draft.body.bytes().is_empty() {
                return Ok(Flow::Go);
            }
            let mut ending = Ending::new(alloc, Stage::GivingUp, draft, None);
            drive(alloc, state, host, &mut ending, Turn::Ask(Call::Now))
        }
        None => Ok(Flow::Go),
    }
}
