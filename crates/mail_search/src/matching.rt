ghost use Rattle.std.specs.Prelude.{◌≡◌, List, true, false, if◌then◌else◌, IfOk, OnOk};
ghost use Rattle.mail_text.specs.Holding.{holds_ascii};
ghost use Rattle.mail_headers.specs.Field.{unfolded};
ghost use Rattle.mail_search.specs.Keys.{Key};
ghost use Rattle.mail_search.specs.Steps.{with_step};
ghost use Rattle.mail_search.specs.Known.{known_or, IsKnown};
ghost use Rattle.mail_search.specs.Entries.{holding_in};
ghost use Rattle.mail_search.specs.declared.matching.Held.TheVariants.{Known};
ghost use Rattle.mail_search.specs.Meaning.{fact_in, field_holds, after_first_line, size_of, moment_by, day_at, is_in_order, day_passes, passes, key_holds};

use crate::criterion::{Clock, Criterion, Fact, Facts, Order, Step, Test};
use crate::message::Message;
use crate::needle::Needle;
use crate::stack::Stack;
use mail_dates::{Moment, after_from, read_from_line};
use mail_headers::{EntryRef, FieldRef, Header, entries_in, from_line_in, unfold_value};
use mail_text::{Memory, same_ascii};
use std::alloc::Global;

/// Whether a key holds: it is known, or is still to be asked of a test.
#[derive(Clone, Copy)]
pub(crate) enum Held<'a> {
    Known(bool),
    Open(&'a Test),
}

/// Whether a message of this text, of which these facts are known, meets the criterion. The text ends before its last
/// line feed. Each key reads it once at most, and a key that can't change the answer doesn't, if it isn't made of others.
/// Keys that ask for fields share one reading of the header. Keys are gone over by a stack, without recursion.
/// Fails only if memory runs out.
pub fn matches(
    alloc: Global,
    criterion: &Criterion,
    text: &[u8],
    facts: &Facts,
) -> Result<bool, Memory>
    ensures { IfOk result (λ held. held ≡ key_holds text.now facts.now criterion.now) }
{
    let message = Message::read(alloc, text, criterion.asks_often())?;
    let mut small = Vec::new(alloc);
    meets(alloc, criterion, &message, facts, &mut small)
}

// Whether the message meets the criterion.
fn meets(
    alloc: Global,
    criterion: &Criterion,
    message: &Message<'_>,
    facts: &Facts,
    small: &mut Vec<u8>,
) -> Result<bool, Memory>
    ensures { IfOk result (λ held. held ≡ key_holds message.now facts.now criterion.now) }
{
    let mut held = Stack::new(alloc);
    for step in criterion.steps() {
        carry_out(alloc, step, message, facts, small, &mut held)?;
    }
    ask(alloc, held.pop(), true, message, facts, small)
}

// Carries a step out on what is known of the keys so far, the last one on top.
fn carry_out<'a>(
    alloc: Global,
    step: &'a Step,
    message: &Message<'_>,
    facts: &Facts,
    small: &mut Vec<u8>,
    held: &mut Stack<Held<'a>>,
) -> Result<(), Memory>
    ensures { OnOk result ((keys : List Key) → IsKnown message.now facts.now held.old keys
        → IsKnown message.now facts.now held.new (with_step keys step.now)) }
{
    match step {
        Step::Test(test) => held.push(Held::Open(test)),
        Step::Not => match held.pop() {
            Some(one) => {
                let one = ask(alloc, Some(one), true, message, facts, small)?;
                held.push(Held::Known(!one))
            }
            None => Ok(()),
        },
        Step::Or => {
            let Some(second) = held.pop() else {
                return Ok(());
            };
            let first = ask(alloc, held.pop(), false, message, facts, small)?;
            held.push(either_of(first, second))
        }
        Step::Both => {
            let Some(second) = held.pop() else {
                return Ok(());
            };
            let first = ask(alloc, held.pop(), true, message, facts, small)?;
            held.push(both_of(first, second))
        }
    }
}

// Whether one of two keys holds, by whether the first does.
fn either_of(first: bool, second: Held<'_>) -> Held<'_>
    ensures { result ≡ (if first then Known true else second.entry) }
{
    if first { Held::Known(true) } else { second }
}

// Whether both of two keys hold, by whether the first does.
fn both_of(first: bool, second: Held<'_>) -> Held<'_>
    ensures { result ≡ (if first then second.entry else Known false) }
{
    if first { second } else { Held::Known(false) }
}

// Whether the key holds; what is given if there is none.
fn ask(
    alloc: Global,
    held: Option<Held<'_>>,
    otherwise: bool,
    message: &Message<'_>,
    facts: &Facts,
    small: &mut Vec<u8>,
) -> Result<bool, Memory>
    ensures { IfOk result (λ answer. answer ≡ known_or message.now facts.now otherwise held.entry) }
{
    match held {
        Some(Held::Known(known)) => Ok(known),
        Some(Held::Open(test)) => passes(alloc, test, message, facts, small),
        None => Ok(otherwise),
    }
}

// Whether the message passes the test.
fn passes(
    alloc: Global,
    test: &Test,
    message: &Message<'_>,
    facts: &Facts,
    small: &mut Vec<u8>,
) -> Result<bool, Memory>
    ensures { IfOk result (λ passed. passed ≡ passes message.now facts.now test.now) }
{
    match test {
        Test::All => Ok(true),
        Test::Is(fact, true) => Ok(fact_in(facts, *fact)),
        Test::Is(fact, false) => Ok(!fact_in(facts, *fact)),
        Test::Field(name, needle) => field_holds(alloc, name.bytes(), needle, message, small),
        Test::Body(needle) => {
            let header = Header::read(alloc, message.text())?;
            needle.stands_in(header.body(), small)
        }
        Test::Text(needle) => needle.stands_in(after_first_line(message.text()), small),
        Test::Larger(limit) => Ok(*limit < size_of(message.text())),
        Test::Smaller(limit) => Ok(size_of(message.text()) < *limit),
        Test::Day(clock, order, limit) => {
            Ok(day_passes(*order, *limit, moment_by(*clock, message, facts)))
        }
    }
}

fn fact_in(facts: &Facts, fact: Fact) -> bool
    ensures { result ≡ fact_in facts.now fact }
{
    match fact {
        Fact::Seen => facts.seen,
        Fact::Deleted => facts.deleted,
        Fact::Answered => facts.answered,
        Fact::Flagged => facts.flagged,
        Fact::Draft => facts.draft,
    }
}

// How many bytes the message has, its last line feed with them.
fn size_of(text: &[u8]) -> u64
    ensures { result ≡ size_of text.now }
{
    text.len() as u64 + 1
}

// The text after its first line.
fn after_first_line(text: &[u8]) -> &[u8]
    ensures { result.now ≡ after_first_line text.now }
{
    let end = from_line_in(text).len();
    if end < text.len() {
        let (_, after) = text.split_at(end + 1);
        after
    } else {
        &[]
    }
}

// Whether some field of this name, unfolded, holds the string.
fn field_holds(
    alloc: Global,
    name: &[u8],
    needle: &Needle,
    message: &Message<'_>,
    small: &mut Vec<u8>,
) -> Result<bool, Memory>
    ensures { IfOk result (λ held. held ≡ field_holds name.now needle.now message.now) }
{
    match message.entries() {
        Some(entries) => kept_holds(alloc, name, needle, entries, small),
        None => text_holds(alloc, name, needle, message.text(), small),
    }
}

// Whether some field of this name, unfolded, holds the string, among kept entries.
fn kept_holds(
    alloc: Global,
    name: &[u8],
    needle: &Needle,
    entries: &[EntryRef<'_>],
    small: &mut Vec<u8>,
) -> Result<bool, Memory>
    ensures { IfOk result (λ held. held ≡ holding_in name.now needle.now entries.now) }
{
    for entry in entries {
        if let Some(one) = entry.field() {
            if same_ascii(one.name(), name) && value_holds(alloc, one, needle, small)? {
                return Ok(true);
            }
        }
    }
    Ok(false)
}

// The same in the text, whose entries aren't kept.
fn text_holds(
    alloc: Global,
    name: &[u8],
    needle: &Needle,
    text: &[u8],
    small: &mut Vec<u8>,
) -> Result<bool, Memory>
    ensures { IfOk result (λ held. held ≡ field_holds name.now needle.now text.now) }
{
    for entry in entries_in(text) {
        if let Some(field) = entry.field() {
            if same_ascii(field.name(), name) && value_holds(alloc, field, needle, small)? {
                return Ok(true);
            }
        }
    }
    Ok(false)
}

// Whether the value of the field, unfolded, holds the string.
fn value_holds(
    alloc: Global,
    field: FieldRef<'_>,
    needle: &Needle,
    small: &mut Vec<u8>,
) -> Result<bool, Memory>
    ensures { IfOk result (λ held. held ≡ holds_ascii needle.now (unfolded field.entry)) }
{
    let value = unfold_value(alloc, field)?;
    needle.stands_in(value.bytes(), small)
}

// When the message came, by its From line, or its own moment.
fn moment_by(clock: Clock, message: &Message<'_>, facts: &Facts) -> Option<Moment>
    ensures { result ≡ moment_by clock message.now facts.now }
{
    match clock {
        Clock::Arrival => read_from_line(after_from(from_line_in(message.text()))).moment,
        Clock::Message => facts.moment,
    }
}

// Whether the day of the moment is in this order to the day of this number; without a moment it is in none.
fn day_passes(order: Order, limit: i32, moment: Option<Moment>) -> bool
    ensures { result ≡ day_passes order limit moment }
{
    match moment {
        Some(moment) => is_in_order(order, day_at(moment), i128::from(limit)),
        None => false,
    }
}

// The day of a moment at the moment's own offset.
fn day_at(moment: Moment) -> i128
    ensures { result ≡ day_at moment }
{
    (i128::from(moment.seconds) + i128::from(moment.offset)).div_euclid(86_400)
}

fn is_in_order(order: Order, day: i128, limit: i128) -> bool
    ensures { result ≡ is_in_order order day limit }
{
    match order {
        Order::Before => day < limit,
        Order::On => day == limit,
        Order::Since => day >= limit,
    }
}
