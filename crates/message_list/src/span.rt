ghost use Rattle.std.specs.Prelude.{◌≡◌, ◌<◌, ◌≤◌, length, IfOk, IfSome};
ghost use Rattle.message_state.specs.ShownRows.{IsShown};
ghost use Rattle.message_list.specs.Naming.{is_message, end_message, end_place, is_between};
ghost use Rattle.message_list.specs.Places.{place_of};
ghost use Rattle.message_list.specs.Marking.{kind_reaches, AreLandmarks, ArePlaces, IsSpanOf};

use crate::list::{End, Kind, Purpose};
use crate::view::{first_of, last_of, next_of, previous_of};
use mail_text::Memory;
use message_state::Shown;
use std::alloc::Global;

// Places of a view, from one up to another.
#[derive(Clone, Copy)]
pub(crate) struct Span {
    pub(crate) from: usize,
    pub(crate) to: usize,
}

// The messages that words name by their place in the view, and the place of each message.
#[derive(Drop)]
pub(crate) struct Landmarks {
    pub(crate) purpose: Purpose,
    pub(crate) first: Option<u32>,
    pub(crate) last: Option<u32>,
    pub(crate) next: Option<u32>,
    pub(crate) previous: Option<u32>,
    // The place of message `n` stands at place `n - 1`.
    pub(crate) places: Vec<usize>,
}

// The landmarks of a view.
pub(crate) fn landmarks_of(
    alloc: Global,
    shown: &Shown,
    purpose: Purpose,
) -> Result<Landmarks, Memory>
    requires { IsShown shown.now }
    ensures marks { IfOk result (AreLandmarks shown.now) }
    ensures purpose { IfOk result (λ marks. marks.purpose ≡ purpose) }
{
    let places = places_of(alloc, shown)?;
    Ok(Landmarks {
        purpose,
        first: first_of(shown, purpose),
        last: last_of(shown, purpose),
        next: next_of(shown, purpose, shown.current),
        previous: previous_of(shown, purpose, shown.current),
        places,
    })
}

// The place of each message, by its number.
fn places_of(alloc: Global, shown: &Shown) -> Result<Vec<usize>, Memory>
    requires { IsShown shown.now }
    ensures { IfOk result (λ places. ArePlaces shown.now places.items) }
{
    let order = shown.order.items();
    let mut places = vec![in alloc; 0; order.len()]?;
    for (p, n) in order.iter().enumerate() {
        places[*n as usize - 1] = p;
    }
    Ok(places)
}

// The place of message `k`, if there is one, by the places of all.
fn place_in(shown: &Shown, places: &[usize], k: u64) -> Option<usize>
    requires valid { IsShown shown.now }
    requires places { ArePlaces shown.now places.now }
    ensures place { result ≡ place_of shown.now k }
    ensures within { IfSome result (λ p. p < length shown.now.order) }
{
    if k == 0 || k > shown.order.items().len() as u64 {
        return None;
    }
    Some(places[k as usize - 1])
}

// The places of the messages that a word of this kind names, as far as neither row nor text is asked.
pub(crate) fn span_of(shown: &Shown, kind: &Kind, marks: &Landmarks) -> Span
    requires valid { IsShown shown.now }
    requires marks { AreLandmarks shown.now marks.now }
    ensures { IsSpanOf shown.now (kind_reaches shown.now marks.now.purpose kind.now) result }
{
    match kind {
        Kind::Number(k) => span_of_message(shown, marks, Some(*k)),
        Kind::Range(a, b) => {
            let from = end_place(shown, *a, marks);
            let to = end_place(shown, *b, marks);
            span_between(shown, from, to)
        }
        Kind::Next => span_of_message(shown, marks, marks.next.map(u64::from)),
        Kind::Previous => span_of_message(shown, marks, marks.previous.map(u64::from)),
        Kind::Current => span_of_message(shown, marks, Some(u64::from(shown.current))),
        Kind::First => span_of_message(shown, marks, marks.first.map(u64::from)),
        Kind::Last => span_of_message(shown, marks, marks.last.map(u64::from)),
        Kind::All | Kind::Address | Kind::Subject | Kind::Letter(_) | Kind::Search(_) => Span {
            from: 0,
            to: shown.order.items().len(),
        },
    }
}

// The place of a message.
fn span_of_message(shown: &Shown, marks: &Landmarks, message: Option<u64>) -> Span
    requires valid { IsShown shown.now }
    requires marks { AreLandmarks shown.now marks.now }
    ensures { IsSpanOf shown.now (is_message message) result }
{
    match message {
        Some(k) => {
            let place = place_in(shown, &marks.places, k);
            match place {
                Some(p) => Span { from: p, to: p + 1 },
                None => Span { from: 0, to: 0 },
            }
        }
        None => Span { from: 0, to: 0 },
    }
}

// The places from one to another.
fn span_between(shown: &Shown, from: Option<usize>, to: Option<usize>) -> Span
    requires valid { IsShown shown.now }
    requires within { IfSome to (λ p. p < length shown.now.order) }
    ensures { IsSpanOf shown.now (λ n. is_between from to (place_of shown.now n)) result }
{
    match (from, to) {
        (Some(from), Some(to)) => {
            if from <= to {
                Span { from, to: to + 1 }
            } else {
                Span { from: 0, to: 0 }
            }
        }
        _ => Span { from: 0, to: 0 },
    }
}

// The place of an end of a range.
fn end_place(shown: &Shown, end: End, marks: &Landmarks) -> Option<usize>
    requires valid { IsShown shown.now }
    requires marks { AreLandmarks shown.now marks.now }
    ensures place { result ≡ end_place shown.now marks.now.purpose end }
    ensures within { IfSome result (λ p. p < length shown.now.order) }
{
    match end_message(shown, end, marks) {
        Some(k) => place_in(shown, &marks.places, k),
        None => None,
    }
}

// The message at an end of a range.
fn end_message(shown: &Shown, end: End, marks: &Landmarks) -> Option<u64>
    requires { AreLandmarks shown.now marks.now }
    ensures { result ≡ end_message shown.now marks.now.purpose end }
{
    match end {
        End::Number(k) => Some(k),
        End::Current => Some(u64::from(shown.current)),
        End::First => marks.first.map(u64::from),
        End::Last => marks.last.map(u64::from),
    }
}
