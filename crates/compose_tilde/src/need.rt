use host_port::{ChildAnswer, EditAnswer};
use mail_text::{Memory, Text};
use message_list::ListError;
use thiserror::Error;

/// What a line of a draft, or an answer, asks for.
#[derive(Drop)]
pub enum Need {
    /// The next line.
    More,
    /// These bytes are printed, and then comes the next line.
    Say(Text),
    /// The file of this name, as it is written, is loaded. `Answer::Loaded` answers it.
    Load(Text),
    /// The dead letter is loaded. `Answer::Loaded` answers it.
    Dead,
    /// The command is run with this input. `Answer::Ran` answers it.
    Child { command: Text, input: Text },
    /// The text is edited by this command. `Answer::Edited` answers it.
    Edit { command: Text, text: Text },
    /// The command of a session is carried out. `Answer::Carried` answers it.
    Command(Text),
    /// The bytes are put at the end of the file of this name, as it is written. `Answer::Carried` answers it.
    Put { name: Text, bytes: Text },
    /// The draft is done.
    Done,
    /// The draft is dropped, and its body goes to the dead letter first if it isn't empty.
    Quit,
    /// The draft is dropped.
    Drop,
}

/// What came of what was asked for.
#[derive(Drop)]
pub enum Answer {
    /// The bytes of a file.
    Loaded(Text),
    /// What a command answered that was run.
    Ran(ChildAnswer),
    /// What an editor answered.
    Edited(EditAnswer),
    /// It was carried out.
    Carried,
}

/// Why a line of a draft, or an answer, is refused.
#[derive(Debug, Drop, Error)]
pub enum ComposeError {
    /// The letter stands for no escape; none if the escape byte stands alone.
    #[error("unknown escape")]
    Unknown { letter: Option<u8> },
    /// The escape of this letter doesn't take what stands after it.
    #[error("bad arguments")]
    BadArguments { letter: u8 },
    /// A command of a session, in send mode.
    #[error("not while sending")]
    NotSending,
    /// What the draft was to take of a command or of an editor was cut.
    #[error("too much output")]
    TooMuch,
    /// The words select no messages.
    #[error("{0}")]
    List(ListError),
    /// Memory ran out.
    #[error("out of memory")]
    Memory,
}

impl From<Memory> for ComposeError {
    ghost use Rattle.std.specs.Prelude.{◌≡◌};
    ghost use Rattle.compose_tilde.specs.declared.need.ComposeError.TheVariants.{Memory};

    ghost from_gives = { λ _ e. e ≡ Memory };

    fn from(_: Memory) -> ComposeError {
        ComposeError::Memory
    }
}
