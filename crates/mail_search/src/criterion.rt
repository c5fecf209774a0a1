ghost use Rattle.std.specs.Prelude.{◌≡◌};

use crate::needle::Needle;
use mail_dates::Moment;
use mail_text::{Items, Text};
use std::marker::Model;

/// What is known of a message beside its text.
#[derive(Clone, Copy, Debug, PartialEq, Eq)]
pub struct Facts {
    /// It was read.
    pub seen: bool,
    /// It is deleted.
    pub deleted: bool,
    /// It was answered.
    pub answered: bool,
    /// It is flagged.
    pub flagged: bool,
    /// It is a draft.
    pub draft: bool,
    /// Its own moment, by its field `Date`, else when it came.
    pub moment: Option<Moment>,
}

/// One of the facts.
#[derive(Clone, Copy)]
pub(crate) enum Fact {
    Seen,
    Deleted,
    Answered,
    Flagged,
    Draft,
}

/// Which moment a day is asked of: when the message came, by its From line, or its own.
#[derive(Clone, Copy)]
pub(crate) enum Clock {
    Arrival,
    Message,
}

/// How a day stands to another: before it, the same, or not before it.
#[derive(Clone, Copy)]
pub(crate) enum Order {
    Before,
    On,
    Since,
}

/// A key that isn't made of others.
#[derive(Drop)]
pub(crate) enum Test {
    /// It always holds.
    All,
    /// The fact holds, or it doesn't.
    Is(Fact, bool),
    /// Some field of the first name, unfolded, holds the second string.
    Field(Text, Needle),
    /// The body holds the string.
    Body(Needle),
    /// The text after its first line holds the string.
    Text(Needle),
    /// The message has more bytes.
    Larger(u64),
    /// The message has fewer bytes.
    Smaller(u64),
    /// The day of the message's moment is in this order to the day of this number, 0 for 1 January 1970.
    Day(Clock, Order, i32),
}

/// A step over a stack of keys: puts a test on top, negates the key on top, or makes one key of the two on top.
#[derive(Drop)]
pub(crate) enum Step {
    Test(Test),
    Not,
    Or,
    Both,
}

/// A search criterion. Contracts see the tree of its keys.
#[derive(Drop)]
pub struct Criterion {
    // each key stands after the keys that it is made of
    steps: Items<Step>,
    // whether several keys ask for fields by name
    asks_often: bool,
}

impl Model for Criterion {
    ghost use Rattle.mail_search.specs.Keys.{Key};
    ghost use Rattle.mail_search.specs.Steps.{keys_of, last_key, key_code};
    ghost use Rattle.mail_search.specs.contracts.criterion.Step as step;

    ghost Value = { Key };

    ghost coded = { key_code step.the_row.coded };

    ghost view = { λ c. last_key (keys_of c.steps) };
}

impl Criterion {
    ghost use Rattle.mail_search.specs.Steps.{keys_of, last_key};

    // The criterion whose keys these steps make.
    pub(crate) fn of(steps: Items<Step>) -> Criterion
        ensures { result ≡ last_key (keys_of steps) }
    {
        let asks_often = ask_often(steps.items());
        Criterion { steps, asks_often }
    }

    // The steps.
    pub(crate) fn steps(&self) -> &[Step]
        ensures { last_key (keys_of result.now) ≡ self.now }
    {
        self.steps.items()
    }

    // Whether several keys ask for fields by name, so that it pays to keep what the header has. No answer hangs on it.
    pub(crate) fn asks_often(&self) -> bool {
        self.asks_often
    }
}

// Whether several of these steps ask for fields by name.
fn ask_often(steps: &[Step]) -> bool {
    let mut once = false;
    for step in steps {
        if let Step::Test(Test::Field(_, _)) = step {
            if once {
                return true;
            }
            once = true;
        }
    }
    false
}
