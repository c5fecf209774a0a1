ghost use Rattle.std.specs.Prelude.{◌≡◌, ◌≤◌, length, map, IfOk};
ghost use Rattle.mbox_scan.specs.Mailbox.{message_limit};
ghost use Rattle.message_state.specs.States.{place};
ghost use Rattle.thread_view.specs.Pairs.{AreSortedNumbers, keyed, text_of, value_of};
ghost use Rattle.std.specs.Cmp.Lexicographic.{slice_cmp};
ghost use Rattle.std.specs.Ordering.{nat_cmp};
ghost use Rattle.thread_view.specs.Sorting.{IsByKey, IsSortedBy, lower_of, number_of, seconds_of};

use crate::view::Key;
use mail_text::Memory;
use message_state::{Row, State};
use std::alloc::Global;

// The numbers of these pairs, by key and then by number.
fn numbers_by<K: Ord + Drop>(alloc: Global, mut pairs: Vec<(K, u32)>) -> Result<Vec<u32>, Memory>
    ensures { IfOk result (λ numbers. AreSortedNumbers K.cmp pairs.items numbers.items) }
{
    pairs.sort_unstable();
    let mut numbers = Vec::with_capacity(alloc, pairs.len())?;
    for pair in &pairs {
        numbers.push_reserved(pair.1);
    }
    Ok(numbers)
}

// The text of a row that is its key.
fn text_of(row: &Row, key: Key) -> &[u8]
    ensures { result.now ≡ text_of key row.now }
{
    match key {
        Key::From => row.texts.author(),
        Key::To => row.texts.to(),
        _ => row.texts.subject(),
    }
}

// The place of a state in the table of states.
fn place(state: State) -> u64
    ensures { result ≡ place state }
{
    match state {
        State::New => 0,
        State::Unread => 1,
        State::Read => 2,
        State::Deleted => 3,
        State::Preserved => 4,
        State::Saved => 5,
        State::Mboxed => 6,
    }
}

// The number of a row that is its key.
fn value_of(row: &Row, key: Key) -> u64
    ensures { result ≡ value_of key row.now }
{
    match key {
        Key::Status => place(row.mark.state),
        _ => row.size,
    }
}

// The seconds of the message's moment.
fn seconds_of(row: &Row) -> Option<i64>
    ensures { result ≡ seconds_of (Some row.now) }
{
    match row.moment {
        Some(moment) => Some(moment.seconds),
        None => None,
    }
}

// The messages by their moments.
fn by_date(alloc: Global, rows: &[Row]) -> Result<Vec<u32>, Memory>
    requires { length rows.now ≤ message_limit }
    ensures { IfOk result (λ order. IsSortedBy Key.Date rows.now order.items) }
{
    let mut pairs = Vec::with_capacity(alloc, rows.len())?;
    for p in 0..rows.len() {
        pairs.push_reserved((seconds_of(&rows[p]), p as u32 + 1));
    }
    numbers_by(alloc, pairs)
}

// The messages with their texts in lower case.
fn lower_texts(alloc: Global, rows: &[Row], key: Key) -> Result<Vec<(Vec<u8>, u32)>, Memory>
    requires { length rows.now ≤ message_limit }
    ensures { IfOk result
        (λ pairs. map (λ p. (p.0.items, p.1)) pairs.items ≡ keyed (lower_of (text_of key)) rows.now) }
{
    let mut pairs = Vec::with_capacity(alloc, rows.len())?;
    for p in 0..rows.len() {
        let lower = text_of(&rows[p], key).to_ascii_lowercase(alloc)?;
        pairs.push_reserved((lower, p as u32 + 1));
    }
    Ok(pairs)
}

// The messages by a text.
fn by_text(alloc: Global, rows: &[Row], key: Key) -> Result<Vec<u32>, Memory>
    requires { length rows.now ≤ message_limit }
    ensures { IfOk result
        (λ order. IsByKey (slice_cmp nat_cmp) (lower_of (text_of key)) rows.now order.items) }
{
    let pairs = lower_texts(alloc, rows, key)?;
    numbers_by(alloc, pairs)
}

// The messages by a number.
fn by_value(alloc: Global, rows: &[Row], key: Key) -> Result<Vec<u32>, Memory>
    requires { length rows.now ≤ message_limit }
    ensures { IfOk result
        (λ order. IsByKey nat_cmp (number_of (value_of key)) rows.now order.items) }
{
    let mut pairs = Vec::with_capacity(alloc, rows.len())?;
    for p in 0..rows.len() {
        pairs.push_reserved((value_of(&rows[p], key), p as u32 + 1));
    }
    numbers_by(alloc, pairs)
}

// The numbers of the messages, sorted by the key.
pub(crate) fn sorted_numbers(alloc: Global, rows: &[Row], key: Key) -> Result<Vec<u32>, Memory>
    requires { length rows.now ≤ message_limit }
    ensures { IfOk result (λ order. IsSortedBy key rows.now order.items) }
{
    match key {
        Key::Date => by_date(alloc, rows),
        Key::From => by_text(alloc, rows, Key::From),
        Key::Size => by_value(alloc, rows, Key::Size),
        Key::Status => by_value(alloc, rows, Key::Status),
        Key::Subject => by_text(alloc, rows, Key::Subject),
        Key::To => by_text(alloc, rows, Key::To),
    }
}
