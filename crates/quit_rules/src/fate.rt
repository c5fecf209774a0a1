ghost use Rattle.std.specs.Prelude.{◌≡◌};
ghost use Rattle.quit_rules.specs.Fates.{fate_of, rules_of};

use crate::Open;
use mailx_vars::Vars;
use message_state::State;

/// What becomes of a message when its folder is left.
#[derive(Clone, Copy, Debug, PartialEq, Eq)]
pub enum Fate {
    /// It stays in the folder.
    Stays,
    /// It goes to the user's own mailbox.
    GoesToMbox,
    /// It leaves the folder and goes nowhere.
    Leaves,
}

impl Fate {
    ghost use Rattle.quit_rules.specs.Fates.{is_staying, is_boxed};

    /// Whether the message stays in the folder.
    pub fn is_staying(self) -> bool
        ensures { result ≡ is_staying self }
    {
        matches!(self, Fate::Stays)
    }

    /// Whether the message goes to mbox.
    pub fn is_boxed(self) -> bool
        ensures { result ≡ is_boxed self }
    {
        matches!(self, Fate::GoesToMbox)
    }
}

/// What the fate of a message depends on beside its state.
#[derive(Clone, Copy, Debug, PartialEq, Eq)]
pub struct Rules {
    /// Whether the folder is the system mailbox.
    pub system: bool,
    /// Whether messages that were read stay in it, by the variable `hold`.
    pub hold: bool,
    /// Whether messages that were saved go to mbox, by the variable `keepsave`.
    pub keepsave: bool,
}

impl Rules {
    /// The rules for a folder and these variables. It takes no memory.
    pub fn of(folder: &Open, vars: &Vars) -> Rules
        ensures { result ≡ rules_of folder.now vars.now }
    {
        Rules {
            system: folder.system,
            hold: vars.flag(b"hold"),
            keepsave: vars.flag(b"keepsave"),
        }
    }

    /// What becomes of a message in this state. It takes no memory.
    pub fn fate(self, state: State) -> Fate
        ensures { result ≡ fate_of self state }
    {
        match state {
            State::Deleted => Fate::Leaves,
            State::Read if self.system && !self.hold => Fate::GoesToMbox,
            State::Mboxed if self.system => Fate::GoesToMbox,
            State::Saved if self.system && self.keepsave => Fate::GoesToMbox,
            State::Saved if self.system => Fate::Leaves,
            _ => Fate::Stays,
        }
    }
}
