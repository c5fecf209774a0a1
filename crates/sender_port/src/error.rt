use mail_text::{Memory, Text};
use thiserror::Error;

/// Why mail can't be sent to names.
#[derive(Debug, Drop)]
pub enum NamesFault {
    /// There is none.
    NoRecipients,
    /// The first that is empty, begins with `-`, or holds a byte below 33 or the byte 127.
    NotAnAddress { name: Text },
}

/// Why mail wasn't sent.
#[derive(Debug, Drop, Error)]
pub enum SendError {
    #[error("no recipients")]
    NoRecipients,
    /// The first name that is empty, begins with `-`, or holds a byte below 33 or the byte 127.
    #[error("not an address: {name}")]
    NotAnAddress { name: Text },
    /// The sender ended with this status, which isn't 0, and wrote this output.
    #[error("sender ended with {status}")]
    Refused { status: i32, output: Text },
    #[error("sender could not be run")]
    Child,
    #[error("out of memory")]
    Memory,
}

impl From<Memory> for SendError {
    ghost use Rattle.std.specs.Prelude.{◌≡◌};
    ghost use Rattle.sender_port.specs.declared.error.SendError.TheVariants as error;

    ghost from_gives = { λ _ e. e ≡ error.Memory };

    fn from(_: Memory) -> Self {
        SendError::Memory
    }
}

impl From<NamesFault> for SendError {
    ghost use Rattle.std.specs.Prelude.{◌≡◌};
    ghost use Rattle.sender_port.specs.Sending.{refused_names};

    ghost from_gives = { λ fault e. e ≡ refused_names fault };

    fn from(fault: NamesFault) -> Self {
        match fault {
            NamesFault::NoRecipients => SendError::NoRecipients,
            NamesFault::NotAnAddress { name } => SendError::NotAnAddress { name },
        }
    }
}
