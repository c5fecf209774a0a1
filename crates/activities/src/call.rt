// What an activity asks for, and what it is answered.
ghost use Rattle.std.specs.Prelude.{◌≡◌};
ghost use Rattle.activities.specs.Acting.{IsAsked, IsSent, IsTime};

use folder_change::Change;
use host_port::{ChildAnswer, EditAnswer};
use mail_dates::Moment;
use mail_text::{Items, Text};
use sender_port::SendError;
use session_play::Found;
use session_state::{AskResult, Flow};

/// One thing that is asked of the outside.
#[derive(Drop)]
pub enum Call {
    /// This is printed.
    Say(Text),
    /// These changes are committed.
    Commit(Items<Change>),
    /// The sender takes this message to these names.
    Send { names: Items<Text>, message: Text },
    /// The moment that it is.
    Now,
    /// The file of this name is loaded.
    Load(Text),
    /// The shell runs this command with this input.
    Shell { command: Text, input: Text },
    /// The text is edited by this command.
    Edit { command: Text, text: Text },
}

/// What it is answered, if the run isn't cut off there.
#[derive(Drop)]
pub enum Answer {
    /// It was printed.
    Said,
    /// What the commit leaves.
    Committed(AskResult),
    /// What the sender wrote, or why the message wasn't sent.
    Sent(Result<Text, SendError>),
    /// The moment.
    Time(Moment),
    /// What the load found; None if it failed.
    Loaded(Option<Found>),
    /// What the command answered; None if it could not be run.
    Ran(Option<ChildAnswer>),
    /// The same of the editor.
    Edited(Option<EditAnswer>),
}

impl Answer {
    /// The moment.
    pub fn time(self) -> Moment
        requires { IsTime self }
        ensures { self ≡ Answer.Time result }
    {
        match self {
            Answer::Time(moment) => moment,
            Answer::Said
            | Answer::Committed(_)
            | Answer::Sent(_)
            | Answer::Loaded(_)
            | Answer::Ran(_)
            | Answer::Edited(_) => Moment {
                seconds: 0,
                offset: 0,
            },
        }
    }

    /// What the commit leaves.
    pub fn asked(self) -> AskResult
        requires { IsAsked self }
        ensures { self ≡ Answer.Committed result }
    {
        match self {
            Answer::Committed(asked) => asked,
            Answer::Said
            | Answer::Sent(_)
            | Answer::Time(_)
            | Answer::Loaded(_)
            | Answer::Ran(_)
            | Answer::Edited(_) => AskResult::Over,
        }
    }

    /// What the sender wrote, or why the message wasn't sent.
    pub fn sent(self) -> Result<Text, SendError>
        requires { IsSent self }
        ensures { self ≡ Answer.Sent result }
    {
        match self {
            Answer::Sent(sent) => sent,
            Answer::Said
            | Answer::Committed(_)
            | Answer::Time(_)
            | Answer::Loaded(_)
            | Answer::Ran(_)
            | Answer::Edited(_) => Err(SendError::Memory),
        }
    }
}

/// How an activity goes on.
#[derive(Drop)]
pub enum Turn {
    /// It asks for this.
    Ask(Call),
    /// It is over, and the session goes on so.
    End(Flow),
}
