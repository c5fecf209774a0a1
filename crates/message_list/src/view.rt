ghost use Rattle.std.specs.Prelude.{◌≡◌, ◌<◌, ◌≤◌, ◌+◌, length, reverse, take, drop, slice_get, true, IfSome};
ghost use Rattle.std.specs.Option.{option_copied};
ghost use Rattle.std.specs.List.{find};
ghost use Rattle.message_state.specs.LiveRows.{is_live};
ghost use Rattle.message_state.specs.ShownRows.{IsShown};
ghost use Rattle.message_list.specs.declared.list.Purpose.TheVariants.{Live};
ghost use Rattle.message_list.specs.Places.{row_at, is_for, in_base, place_of, back_from, first_of, last_of, next_of, previous_of};
ghost use Rattle.message_list.specs.ByRow.{IsByRow, IsNextFor, IsPreviousFor};

use crate::list::Purpose;
use message_state::{Mark, Row, Shown, Standing, State};

/// Whether a message of this mark isn't deleted.
pub fn is_live(mark: Mark) -> bool
    ensures { result ≡ is_live mark }
{
    mark.state != State::Deleted
}

/// The place of message `k` in the view, from 0.
pub fn place_of(shown: &Shown, k: u32) -> Option<usize>
    requires { IsShown shown.now }
    ensures { result ≡ place_of shown.now k }
{
    find_place(shown, u64::from(k))
}

/// The first message of the view that isn't deleted.
pub fn first_live(shown: &Shown) -> Option<u32>
    ensures { result ≡ first_of shown.now Live }
{
    first_of(shown, Purpose::Live)
}

/// The next message after message `k` in the view that isn't deleted. None also if `k` is no message. In a view
/// by number it is found without a walk over deleted messages.
pub fn next_live(shown: &Shown, k: u32) -> Option<u32>
    requires { IsShown shown.now }
    ensures { result ≡ next_of shown.now Live k }
{
    next_of(shown, Purpose::Live, k)
}

/// The nearest message before message `k` in the view that isn't deleted. None also if `k` is no message. In a view
/// by number it is found without a walk over deleted messages.
pub fn previous_live(shown: &Shown, k: u32) -> Option<u32>
    requires { IsShown shown.now }
    ensures { result ≡ previous_of shown.now Live k }
{
    previous_of(shown, Purpose::Live, k)
}

// The row of message `n`, if there is one.
pub(crate) fn row_at(shown: &Shown, n: u32) -> Option<&Row>
    ensures { option_copied result ≡ row_at shown.now n }
{
    if n == 0 {
        None
    } else {
        shown.rows.items().get(n as usize - 1)
    }
}

// Whether a message of this mark is in the base set.
pub(crate) fn is_for(purpose: Purpose, mark: Mark) -> bool
    ensures { result ≡ is_for purpose mark }
{
    match purpose {
        Purpose::Live => is_live(mark),
        Purpose::Dead => !is_live(mark),
        Purpose::Any => true,
    }
}

/// Whether message `n` is in the base set.
pub fn in_base(shown: &Shown, purpose: Purpose, n: u32) -> bool
    ensures { result ≡ in_base shown.now purpose n }
{
    match row_at(shown, n) {
        Some(row) => is_for(purpose, row.mark),
        None => false,
    }
}

// The place of message `k` in the view.
pub(crate) fn find_place(shown: &Shown, k: u64) -> Option<usize>
    requires { IsShown shown.now }
    ensures place { result ≡ place_of shown.now k }
    ensures within { IfSome result (λ p. p < length shown.now.order) }
{
    if k > u64::from(u32::MAX) {
        return None;
    }
    shown.order.place(k as u32)
}

// The first message of the base set in the view.
pub(crate) fn first_of(shown: &Shown, purpose: Purpose) -> Option<u32>
    ensures { result ≡ first_of shown.now purpose }
{
    first_from(shown, purpose, 0)
}

// The last one.
pub(crate) fn last_of(shown: &Shown, purpose: Purpose) -> Option<u32>
    ensures { result ≡ last_of shown.now purpose }
{
    last_before(shown, purpose, shown.order.items().len())
}

// The next message of the base set after message `k` in the view.
pub(crate) fn next_of(shown: &Shown, purpose: Purpose, k: u32) -> Option<u32>
    requires { IsShown shown.now }
    ensures { result ≡ next_of shown.now purpose k }
{
    match find_place(shown, u64::from(k)) {
        Some(p) => first_from(shown, purpose, p + 1),
        None => None,
    }
}

// The nearest message of the base set before message `k` in the view.
pub(crate) fn previous_of(shown: &Shown, purpose: Purpose, k: u32) -> Option<u32>
    requires { IsShown shown.now }
    ensures { result ≡ previous_of shown.now purpose k }
{
    match find_place(shown, u64::from(k)) {
        Some(p) => last_before(shown, purpose, p),
        None => None,
    }
}

// Message `k` if it is in the base set, else the nearest one before it.
pub(crate) fn at_or_before(shown: &Shown, purpose: Purpose, k: u32) -> Option<u32>
    requires { IsShown shown.now }
    ensures { result ≡ find (in_base shown.now purpose) (back_from shown.now k) }
{
    match find_place(shown, u64::from(k)) {
        Some(p) => last_before(shown, purpose, p + 1),
        None => None,
    }
}

// Whether messages stand at the places of their rows: the view is by number.
fn is_by_row(shown: &Shown) -> bool
    ensures { result ≡ true → IsByRow shown.now }
{
    shown.order.is_by_number() && shown.order.items().len() == shown.rows.items().len()
}

// The message at a place of an order.
fn message_at(order: &[u32], place: usize) -> Option<u32>
    ensures { result ≡ slice_get order.now place }
{
    order.get(place).copied()
}

// The first message of the base set at or after a place of the view.
fn first_from(shown: &Shown, purpose: Purpose, place: usize) -> Option<u32>
    requires { place ≤ length shown.now.order }
    ensures { result ≡ find (in_base shown.now purpose) (drop place shown.now.order) }
{
    if is_by_row(shown) {
        let row = next_row(shown, purpose, place)?;
        return message_at(shown.order.items(), row);
    }
    let (_, after) = shown.order.items().split_at(place);
    after.iter().copied().find(|n| in_base(shown, purpose, *n))
}

// The last message of the base set before a place of the view.
fn last_before(shown: &Shown, purpose: Purpose, place: usize) -> Option<u32>
    requires { place ≤ length shown.now.order }
    ensures { result ≡ find (in_base shown.now purpose) (reverse (take place shown.now.order)) }
{
    if is_by_row(shown) {
        let row = previous_row(shown, purpose, place)?;
        return message_at(shown.order.items(), row);
    }
    let (before, _) = shown.order.items().split_at(place);
    before
        .iter()
        .rev()
        .copied()
        .find(|n| in_base(shown, purpose, *n))
}

// The first row at or after row `from`, from 0, whose message is in the base set.
fn next_row(shown: &Shown, purpose: Purpose, from: usize) -> Option<usize>
    ensures { IsNextFor purpose shown.now.rows from result }
{
    match purpose {
        Purpose::Live => shown.rows.next(Standing::Live, from),
        Purpose::Dead => shown.rows.next(Standing::Dead, from),
        Purpose::Any => {
            if from < shown.rows.items().len() {
                Some(from)
            } else {
                None
            }
        }
    }
}

// The last row before row `end`, from 0, whose message is in the base set.
fn previous_row(shown: &Shown, purpose: Purpose, end: usize) -> Option<usize>
    requires { end ≤ length shown.now.rows }
    ensures { IsPreviousFor purpose shown.now.rows end result }
{
    match purpose {
        Purpose::Live => shown.rows.previous(Standing::Live, end),
        Purpose::Dead => shown.rows.previous(Standing::Dead, end),
        Purpose::Any => end.checked_sub(1),
    }
}
