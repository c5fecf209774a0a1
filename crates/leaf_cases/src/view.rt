// Views of messages.
ghost use Rattle.std.specs.Prelude.{◌≡◌, ◌≤◌, ℕ, All, IfOk, IfSome, length};
ghost use Rattle.std.specs.List.{range_with_len};
ghost use Rattle.std.specs.List.Sorted.{IsPermutation};
ghost use Rattle.mail_dates.specs.Clock.{IsInYears};
ghost use Rattle.message_state.specs.declared.row.Row.{Row};
ghost use Rattle.message_state.specs.ShownRows.{IsShown};

use crate::states::state_of;
use case_blocks::Answer;
use mail_text::{Items, Memory, Text, read_number};
use memchr::memchr;
use message_state::{Order, Row, RowList, Shown, row_of};
use std::alloc::Global;

/// The messages that are kept, in the order that comes of changing places by pairs in turn, so deep and with this
/// current message; none if there are more than 100, or the current message isn't one of them. If no depth is
/// given, a message isn't deep.
pub fn shown_of(
    messages: &[Text],
    turns: &[u32],
    depths: &[u32],
    current: u32,
    out: &mut Answer,
) -> Result<Option<Shown>, Memory>
    ensures { IfOk result (λ found. IfSome found IsShown) }
{
    let rows = RowList::of(out.alloc(), rows_of(out.alloc(), messages)?)?;
    let count = rows.items().len();
    if count > 100 || current as usize > count {
        return Ok(None);
    }
    let order = order_of(out.alloc(), count as u32, turns)?;
    let depth = depths_of(out.alloc(), order.len(), depths)?;
    Ok(Some(Shown {
        rows,
        order: Order::of(Items::of(order)),
        depth: Items::of(depth),
        current,
    }))
}

// `count` depths: these, and 0 for those that are missing.
fn depths_of(alloc: Global, count: usize, depths: &[u32]) -> Result<Vec<u32>, Memory>
    ensures { IfOk result (λ v. length v.items ≡ count) }
{
    let mut depth = depths.to_vec(alloc)?;
    depth.resize(count, 0)?;
    Ok(depth)
}

// A row of a message, which is written as the letter of its state, its size if it isn't its own, a space and the
// text.
fn message_row(alloc: Global, message: &[u8]) -> Result<Row, Memory>
    ensures { IfOk result (λ row. IfSome row.moment IsInYears) }
{
    let (front, text) = cut(message);
    let mut row = row_of(alloc, text)?;
    row.mark.state = state_of(front);
    if let Some(size) = size_in(front) {
        row.size = size;
    }
    Ok(row)
}

// What stands before the first space, and after it.
fn cut(message: &[u8]) -> (&[u8], &[u8]) {
    match memchr(b' ', message) {
        Some(at) => (&message[..at], &message[at + 1..]),
        None => (message, b""),
    }
}

fn size_in(front: &[u8]) -> Option<u64> {
    match front {
        [_, digits @ ..] => read_number(digits),
        [] => None,
    }
}

// The rows of the messages.
pub fn rows_of(alloc: Global, messages: &[Text]) -> Result<Items<Row>, Memory>
    ensures { IfOk result (λ rows. All (λ row. IfSome row.moment IsInYears) rows) }
{
    let mut rows = Items::new(alloc);
    for message in messages {
        let row = message_row(alloc, message.bytes())?;
        rows.push(row)?;
    }
    Ok(rows)
}

// The numbers from 1 on, after the values at each pair of places changed places in turn.
fn order_of(alloc: Global, count: u32, turns: &[u32]) -> Result<Vec<u32>, Memory>
    ensures { IfOk result (λ v. IsPermutation (range_with_len 1 count) v.items) }
{
    let mut order = numbers_to(alloc, count)?;
    for pair in turns.chunks(2) {
        swap_places(&mut order, pair);
    }
    Ok(order)
}

// The numbers from 1 on.
fn numbers_to(alloc: Global, count: u32) -> Result<Vec<u32>, Memory>
    ensures { IfOk result (λ v. IsPermutation (range_with_len 1 count) v.items) }
{
    let mut order = Vec::new(alloc);
    for i in 0..count {
        order.push(i + 1)?;
    }
    Ok(order)
}

// Changes the values at two places, if there are such places.
fn swap_places(order: &mut Vec<u32>, places: &[u32])
    ensures { IsPermutation order.old.items order.new.items }
{
    if let [a, b] = places {
        swap_two(order, *a as usize, *b as usize);
    }
}

fn swap_two(order: &mut Vec<u32>, a: usize, b: usize)
    ensures { IsPermutation order.old.items order.new.items }
{
    if a < order.len() && b < order.len() {
        order.swap(a, b);
    }
}
