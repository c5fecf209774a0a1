ghost use Rattle.std.specs.Prelude.{◌≡◌, ◌≢◌};
ghost use Rattle.message_state.specs.States.{state_after, sees, flags_after, after};

/// What has become of a message in a session.
#[derive(Clone, Copy, Debug, PartialEq, Eq)]
pub enum State {
    /// It came since the folder was last left.
    New,
    /// It is older, and was never looked at.
    Unread,
    /// It was looked at.
    Read,
    /// It leaves the folder.
    Deleted,
    /// It stays in the system mailbox.
    Preserved,
    /// It was saved to a file.
    Saved,
    /// It goes to the user's own mailbox.
    Mboxed,
}

/// What the user or another program has noted of a message.
#[derive(Clone, Copy, Debug, PartialEq, Eq)]
pub struct Flags {
    /// It was answered.
    pub answered: bool,
    /// It is to stand out.
    pub flagged: bool,
    /// It isn't finished.
    pub draft: bool,
}

/// A message's state, whether it was ever seen, and its flags.
#[derive(Clone, Copy, Debug, PartialEq, Eq)]
pub struct Mark {
    /// What has become of it.
    pub state: State,
    /// Whether it was ever seen, in this session or an earlier one.
    pub seen: bool,
    /// What was noted of it.
    pub flags: Flags,
}

/// Whether a message is deleted.
#[derive(Clone, Copy, Debug, PartialEq, Eq)]
pub enum Standing {
    /// It isn't.
    Live,
    /// It is.
    Dead,
}

/// What a command does to a message.
#[derive(Clone, Copy, Debug, PartialEq, Eq)]
pub enum Act {
    /// It is shown.
    Look,
    /// It is to leave the folder.
    Delete,
    /// It is to stay after all.
    Undelete,
    /// It is to stay in the system mailbox.
    Hold,
    /// It is to go to the user's own mailbox.
    Mbox,
    /// It counts as dealt with.
    Touch,
    /// It was saved to a file.
    Save,
    /// It is flagged.
    Flag,
    /// It is flagged no more.
    Unflag,
    /// It counts as answered.
    Answered,
    /// It counts as answered no more.
    Unanswered,
    /// It counts as a draft.
    Draft,
    /// It counts as a draft no more.
    Undraft,
}

/// The mark after an act. An act that sets or clears a flag changes nothing else.
pub fn after(mark: Mark, act: Act) -> Mark
    ensures { result ≡ after mark act }
{
    Mark {
        state: state_after(mark.state, act),
        seen: mark.seen || sees(mark.state, act),
        flags: flags_after(mark.flags, act),
    }
}

// Whether the message is then seen.
fn sees(state: State, act: Act) -> bool
    ensures { result ≡ sees state act }
{
    match act {
        Act::Look => state != State::Deleted,
        Act::Undelete | Act::Mbox | Act::Touch | Act::Save => state_after(state, act) != state,
        _ => false,
    }
}

// The flags after an act.
fn flags_after(flags: Flags, act: Act) -> Flags
    ensures { result ≡ flags_after flags act }
{
    let mut flags = flags;
    match act {
        Act::Flag => flags.flagged = true,
        Act::Unflag => flags.flagged = false,
        Act::Answered => flags.answered = true,
        Act::Unanswered => flags.answered = false,
        Act::Draft => flags.draft = true,
        Act::Undraft => flags.draft = false,
        _ => {}
    }
    flags
}

// The state after an act.
fn state_after(state: State, act: Act) -> State
    ensures { result ≡ state_after state act }
{
    match state {
        State::Deleted => match act {
            Act::Undelete => State::Read,
            _ => State::Deleted,
        },
        _ => match act {
            Act::Look => looked_at(state),
            Act::Delete => State::Deleted,
            Act::Undelete => state,
            Act::Hold => State::Preserved,
            Act::Mbox => State::Mboxed,
            Act::Touch => touched(state),
            Act::Save => State::Saved,
            _ => state,
        },
    }
}

// The state after a look.
fn looked_at(state: State) -> State
    ensures { result ≡ state_after state Act.Look }
{
    match state {
        State::New | State::Unread => State::Read,
        _ => state,
    }
}

// The state of a message that isn't deleted, after a touch.
fn touched(state: State) -> State
    requires { state ≢ State.Deleted }
    ensures { result ≡ state_after state Act.Touch }
{
    match state {
        State::Saved => State::Saved,
        _ => State::Mboxed,
    }
}
