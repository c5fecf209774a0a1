ghost use Rattle.std.specs.Prelude.{◌≡◌, map};
ghost use Rattle.std.specs.Option.{option_map};
ghost use Rattle.std.specs.List.{find};
ghost use Rattle.mail_text.specs.Ascii.{same_ascii};
ghost use Rattle.mail_search.specs.Names.{names, named_by, opening_of};

use crate::criterion::{Clock, Fact, Order};
use mail_text::same_ascii;

/// What the name of a key begins: the key by itself, one with arguments, or one that is made of others.
#[derive(Clone, Copy)]
pub(crate) enum Opening {
    All,
    Is(Fact, bool),
    Field,
    Header,
    Body,
    Text,
    Larger,
    Smaller,
    Day(Clock, Order),
    Not,
    Or,
}

// The name of a key, and what it begins.
#[derive(Drop)]
pub(crate) struct Named {
    name: &'static [u8],
    opening: Opening,
}

// The names of all keys.
#[rattlefmt::skip]
static NAMES: [Named; 29] = [
    Named { name: b"all", opening: Opening::All },
    Named { name: b"answered", opening: Opening::Is(Fact::Answered, true) },
    Named { name: b"deleted", opening: Opening::Is(Fact::Deleted, true) },
    Named { name: b"draft", opening: Opening::Is(Fact::Draft, true) },
    Named { name: b"flagged", opening: Opening::Is(Fact::Flagged, true) },
    Named { name: b"seen", opening: Opening::Is(Fact::Seen, true) },
    Named { name: b"unanswered", opening: Opening::Is(Fact::Answered, false) },
    Named { name: b"undeleted", opening: Opening::Is(Fact::Deleted, false) },
    Named { name: b"undraft", opening: Opening::Is(Fact::Draft, false) },
    Named { name: b"unflagged", opening: Opening::Is(Fact::Flagged, false) },
    Named { name: b"unseen", opening: Opening::Is(Fact::Seen, false) },
    Named { name: b"subject", opening: Opening::Field },
    Named { name: b"from", opening: Opening::Field },
    Named { name: b"to", opening: Opening::Field },
    Named { name: b"cc", opening: Opening::Field },
    Named { name: b"bcc", opening: Opening::Field },
    Named { name: b"header", opening: Opening::Header },
    Named { name: b"body", opening: Opening::Body },
    Named { name: b"text", opening: Opening::Text },
    Named { name: b"larger", opening: Opening::Larger },
    Named { name: b"smaller", opening: Opening::Smaller },
    Named { name: b"before", opening: Opening::Day(Clock::Arrival, Order::Before) },
    Named { name: b"on", opening: Opening::Day(Clock::Arrival, Order::On) },
    Named { name: b"since", opening: Opening::Day(Clock::Arrival, Order::Since) },
    Named { name: b"sentbefore", opening: Opening::Day(Clock::Message, Order::Before) },
    Named { name: b"senton", opening: Opening::Day(Clock::Message, Order::On) },
    Named { name: b"sentsince", opening: Opening::Day(Clock::Message, Order::Since) },
    Named { name: b"not", opening: Opening::Not },
    Named { name: b"or", opening: Opening::Or },
];

// The rows of the table.
fn rows() -> &'static [Named]
    ensures { map named_by result.now ≡ names }
{
    &NAMES
}

// The row of this name, the case of ASCII letters ignored.
fn row_named(word: &[u8]) -> Option<&'static Named>
    ensures { option_map (λ n. named_by n.now) result ≡ find (λ n. same_ascii n.name word.now) names }
{
    rows().iter().find(|n| same_ascii(n.name, word))
}

/// What the word begins as the name of a key, the case of ASCII letters ignored; none if it is no such name.
pub(crate) fn opening_of(word: &[u8]) -> Option<Opening>
    ensures { result ≡ opening_of word.now }
{
    match row_named(word) {
        Some(named) => Some(named.opening),
        None => None,
    }
}
