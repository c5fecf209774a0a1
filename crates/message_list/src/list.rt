use mail_search::Criterion;
use mail_text::{Items, Memory, Text};
use std::alloc::{AllocError, AllocFailed};
use thiserror::Error;

/// Which messages a command's list selects from.
#[derive(Clone, Copy, Debug, PartialEq, Eq)]
pub enum Purpose {
    /// The messages that aren't deleted.
    Live,
    /// The deleted ones.
    Dead,
    /// All.
    Any,
}

/// An end of a range of places in the view.
#[derive(Clone, Copy, Debug, PartialEq, Eq)]
pub enum End {
    /// Digits: the message of that number. `u64::MAX` stands for a number past 64 bits.
    Number(u64),
    /// `.`: the current message.
    Current,
    /// `^`: the first message that the list selects from.
    First,
    /// `$`: the last one.
    Last,
}

/// What a word of a list is.
#[derive(Drop)]
pub enum Kind {
    /// Digits: the message of that number. `u64::MAX` stands for a number past 64 bits.
    Number(u64),
    /// Two ends with `-` between them: the messages from the first to the second in the view.
    Range(End, End),
    /// `+`: the next message that the list selects from.
    Next,
    /// `-`: the previous one.
    Previous,
    /// `.`: the current message.
    Current,
    /// `^`: the first message that the list selects from.
    First,
    /// `$`: the last one.
    Last,
    /// `*`: all.
    All,
    /// A bare address or its local part: the messages of that author.
    Address,
    /// `/` and a string: the messages whose subject holds it.
    Subject,
    /// `:` and one of the letters `adfnortu`: the messages in a state, or with a flag.
    Letter(u8),
    /// A search criterion in parentheses: the messages whose text and mark meet it.
    Search(Criterion),
}

/// A word of a list and what it is.
#[derive(Drop)]
pub struct Item {
    /// The word as it was given.
    pub word: Text,
    /// What it is.
    pub kind: Kind,
}

/// A list of words that were read.
#[derive(Drop)]
pub struct ListSpec {
    /// The words in order.
    pub items: Items<Item>,
}

/// Why words select no messages.
#[derive(Debug, Drop, Error)]
pub enum ListError {
    /// The word is no word of a list.
    #[error("{word}: bad message list")]
    Syntax { word: Text },
    /// The word names no message that the list selects from.
    #[error("{word}: no such message")]
    NoSuch { word: Text },
    /// There is no word, and no message that stands for none.
    #[error("no applicable message")]
    NoneMatch,
    /// Memory ran out.
    #[error("out of memory")]
    Memory,
}

impl From<Memory> for ListError {
    ghost use Rattle.std.specs.Prelude.{◌≡◌};
    ghost use Rattle.message_list.specs.declared.list.ListError.TheVariants.{Memory};

    ghost from_gives = { λ _ e. e ≡ Memory };

    fn from(_: Memory) -> ListError {
        ListError::Memory
    }
}

impl From<AllocError> for ListError {
    ghost use Rattle.std.specs.Prelude.{◌≡◌};
    ghost use Rattle.message_list.specs.declared.list.ListError.TheVariants.{Memory};

    ghost from_gives = { λ _ e. e ≡ Memory };

    fn from(_: AllocError) -> ListError {
        ListError::Memory
    }
}

impl<T: Drop> From<AllocFailed<T>> for ListError {
    ghost use Rattle.std.specs.Prelude.{◌≡◌};
    ghost use Rattle.message_list.specs.declared.list.ListError.TheVariants.{Memory};

    ghost from_gives = { λ _ e. e ≡ Memory };

    fn from(_: AllocFailed<T>) -> ListError {
        ListError::Memory
    }
}
