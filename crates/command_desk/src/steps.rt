ghost use Rattle.std.specs.Prelude.{◌≡◌, IfOk, Ok};
ghost use Rattle.command_desk.specs.Answers.{Means, says, effects_alone};

use crate::Effects;
use draft_text::Draft;
use folder_change::Change;
use mail_text::{Items, Memory, Text};
use std::alloc::{AllocError, Global};
use thiserror::Error;
use thread_view::ViewKind;

/// What a command asks for.
#[derive(Drop)]
pub enum Ask {
    /// These bytes are printed.
    Say(Text),
    /// These changes of files are committed at once. Their names may be some that no file can have.
    Commit {
        changes: Items<Change>,
    },
    /// What is to be put into the file of this name is gathered. Its name may be one that no file can have; then, and if
    /// the changes that were gathered are of as many other files as they may be, what follows is refused.
    Gather {
        name: Text,
    },
    /// The lines of the file of this name are carried out then. Its name may be one that no file can have.
    Source {
        name: Text,
    },
    /// The lines of this text are carried out then: those of a macro that is called.
    Lines {
        text: Text,
    },
    /// The file of this name is opened in place of the folder, once these changes were committed, which leave that.
    /// Then the reply and the new folder's opening line are printed. The names may be some that no file can have.
    Open {
        name: Text,
        changes: Items<Change>,
        reply: Text,
    },
    /// What was added to the folder's file is taken in.
    Newmail,
    /// The messages of the folder are shown in a view of this kind.
    View {
        kind: ViewKind,
    },
    /// A message is begun: the lines of the input that follow are those of this draft, until it is over. A line feed in
    /// a part of it but the body stands for a space. If a file is named the message is recorded in it: the name stands
    /// for itself, and may be one that no file can have. If a message is named it becomes current first.
    Draft {
        draft: Draft,
        file: Option<Text>,
        current: Option<u32>,
    },
    /// This command is run by the shell of the places with this input. Its output is printed, and after it
    /// `exit status N` if its status isn't 0; one that can't be run refuses what follows.
    Child {
        command: Text,
        input: Text,
    },
    /// The message of this number is edited by this command, which the shell of the places runs. What it makes of the
    /// message takes its place in the folder and in the folder's file.
    Edit {
        number: u32,
        command: Text,
    },
    /// The run ends without changes.
    Exit,
}

/// What a command comes to.
#[derive(Drop)]
pub struct Steps {
    /// What is asked for, in order.
    pub asks: Items<Ask>,
    /// What is changed once that was done.
    pub effects: Effects,
}

/// Why a command is not carried out.
#[derive(Drop, Debug, Error)]
pub enum Refusal {
    /// It is refused by this line, which ends in a line feed.
    #[error("{line}")]
    Fault { line: Text },
    /// Memory ran out.
    #[error("out of memory")]
    Memory,
}

impl From<Memory> for Refusal {
    ghost use Rattle.std.specs.Prelude.{◌≡◌};
    ghost use Rattle.command_desk.specs.declared.steps.Refusal.TheVariants.{Memory};

    ghost from_gives = { λ _ e. e ≡ Memory };

    fn from(_: Memory) -> Refusal {
        Refusal::Memory
    }
}

impl From<AllocError> for Refusal {
    ghost use Rattle.std.specs.Prelude.{◌≡◌};
    ghost use Rattle.command_desk.specs.declared.steps.Refusal.TheVariants.{Memory};

    ghost from_gives = { λ _ e. e ≡ Memory };

    fn from(_: AllocError) -> Refusal {
        Refusal::Memory
    }
}

/// Bytes are printed, and this is changed.
pub fn says(alloc: Global, bytes: Text, effects: Effects) -> Result<Steps, Refusal>
    ensures means { Means result (says bytes effects) }
    ensures effects { IfOk result (λ steps. steps.effects ≡ effects) }
{
    let mut asks = Items::new(alloc);
    asks.push(Ask::Say(bytes))?;
    Ok(Steps { asks, effects })
}

/// This is changed, and nothing is printed.
pub fn effects_alone(alloc: Global, effects: Effects) -> Steps
    ensures { effects_alone effects ≡ Ok result }
{
    Steps {
        asks: Items::new(alloc),
        effects,
    }
}
