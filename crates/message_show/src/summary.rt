ghost use Rattle.std.specs.Prelude.{◌≡◌, ◌+◌, ◌-◌, ◌<◌, ◌≤◌, ◌++◌, All, length, take, slice_index, IfOk, OnOk};
ghost use Rattle.mail_text.specs.Lines.{with_feed};
ghost use Rattle.message_state.specs.ShownRows.{IsShown};
ghost use Rattle.message_show.specs.Summary.{summary, summaries, page_text, with_current};

use crate::columns::columns;
use mail_text::{Memory, Text};
use message_state::Shown;
use std::alloc::Global;

/// The summary line of message `k`, without a line feed: the mark `>` of the current message, the letter of its
/// state (N U R D P S M for New, Unread, Read, Deleted, Preserved, Saved and Mboxed), its number, its author, its
/// date as a clock at the date's own offset shows it, its size, its depth and its subject, cut to `width - 1`
/// bytes. Fails only if memory runs out.
pub fn summary_line(alloc: Global, shown: &Shown, k: u32, width: usize) -> Result<Text, Memory>
    requires valid { IsShown shown.now }
    requires first { 1 ≤ k }
    requires last { k ≤ length shown.now.rows }
    requires width { 2 ≤ width }
    ensures { IfOk result (λ t. t ≡ summary shown.now k width) }
{
    let place = place_of(shown, k);
    summary_at(alloc, shown, shown.current, place, width)
}

/// The summary lines of these messages in this order, each ended by one line feed. Fails only if memory runs out.
pub fn summary_lines(
    alloc: Global,
    shown: &Shown,
    numbers: &[u32],
    width: usize,
) -> Result<Text, Memory>
    requires valid { IsShown shown.now }
    requires messages { All (λ k. (1 ≤ k) × (k ≤ length shown.now.rows)) numbers.now }
    requires width { 2 ≤ width }
    ensures { IfOk result (λ t. t ≡ summaries shown.now numbers.now width) }
{
    let mut text = Text::new(alloc);
    for k in numbers {
        let place = place_of(shown, *k);
        push_summary(alloc, &mut text, shown, shown.current, place, width)?;
    }
    Ok(text)
}

/// The summary lines of up to `lines` places of the view from place `start`, counted from 0, each ended by one line
/// feed. Fails only if memory runs out.
pub fn page(
    alloc: Global,
    shown: &Shown,
    start: usize,
    lines: usize,
    width: usize,
) -> Result<Text, Memory>
    requires valid { IsShown shown.now }
    requires width { 2 ≤ width }
    ensures { IfOk result (λ t. t ≡ page_text shown.now start lines width) }
{
    page_with_current(alloc, shown, shown.current, start, lines, width)
}

/// The summary lines that `page` gives, with another current message, or none if `current` is 0.
pub fn page_with_current(
    alloc: Global,
    shown: &Shown,
    current: u32,
    start: usize,
    lines: usize,
    width: usize,
) -> Result<Text, Memory>
    requires valid { IsShown shown.now }
    requires width { 2 ≤ width }
    ensures { IfOk result (λ t. t ≡ page_text (with_current shown.now current) start lines width) }
{
    let count = shown.order.items().len();
    let first = start.min(count);
    let end = first + lines.min(count - first);
    let mut text = Text::new(alloc);
    for place in first..end {
        push_summary(alloc, &mut text, shown, current, place, width)?;
    }
    Ok(text)
}

// Puts the summary line of the message at a place of the view at the end, with a line feed.
fn push_summary(
    alloc: Global,
    text: &mut Text,
    shown: &Shown,
    current: u32,
    place: usize,
    width: usize,
) -> Result<(), Memory>
    requires valid { IsShown shown.now }
    requires place { place < length shown.now.order }
    requires width { 2 ≤ width }
    ensures { OnOk result
        (text.new ≡ text.old ++ with_feed
        (summary (with_current shown.now current) (slice_index shown.now.order place) width)) }
{
    let line = summary_at(alloc, shown, current, place, width)?;
    text.push(line.bytes())?;
    text.push(b"\n")
}

// The summary line of the message at a place of the view.
fn summary_at(
    alloc: Global,
    shown: &Shown,
    current: u32,
    place: usize,
    width: usize,
) -> Result<Text, Memory>
    requires valid { IsShown shown.now }
    requires place { place < length shown.now.order }
    requires width { 2 ≤ width }
    ensures { IfOk result
        (λ t. t ≡ summary (with_current shown.now current) (slice_index shown.now.order place) width) }
{
    let number = shown.order.items()[place];
    let depth = shown.depth.items()[place];
    let row = &shown.rows.items()[number as usize - 1];
    let line = columns(alloc, current, number, depth, row)?;
    cut(alloc, line, row.texts.subject(), width - 1)
}

// The columns and the subject, cut to `most` bytes.
fn cut(alloc: Global, columns: Text, subject: &[u8], most: usize) -> Result<Text, Memory>
    ensures { IfOk result (λ t. t ≡ take most (columns ++ subject.now)) }
{
    let length = columns.bytes().len();
    if most < length {
        Text::copy(alloc, &columns.bytes()[..most])
    } else {
        let mut line = columns;
        let (front, _) = subject.split_at(subject.len().min(most - length));
        line.push(front)?;
        Ok(line)
    }
}

// The place of message `k` in the view.
fn place_of(shown: &Shown, k: u32) -> usize
    requires valid { IsShown shown.now }
    requires first { 1 ≤ k }
    requires last { k ≤ length shown.now.rows }
    ensures within { result < length shown.now.order }
    ensures found { slice_index shown.now.order result ≡ k }
{
    match shown.order.place(k) {
        Some(place) => place,
        None => unreachable!(),
    }
}
