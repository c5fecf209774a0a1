// The view by pages.
ghost use Rattle.std.specs.Prelude.{◌≡◌, ◌<◌, ◌*◌, true, false, IfOk, length};
ghost use Rattle.command_desk.specs.Answers.{Means};
ghost use Rattle.command_desk.specs.Desks.{IsDesk, IsMessageOf, IsWithin};
ghost use Rattle.command_desk.specs.Effects.{unchanged, moved};
ghost use Rattle.show_commands.specs.Paging.{page_size, page_of, current_page, says_page, page_of_message, headers, turned, scrolled, scroll};

use crate::printing::number_of_variable;
use command_desk::{Desk, Effects, Refusal, Steps, chosen, fault, moved, says, single, unchanged};
use mail_text::Text;
use message_list::{Purpose, place_of};
use message_show::{page, page_with_current};
use std::alloc::Global;

/// How many messages a page has.
pub fn page_size(alloc: Global, desk: &Desk) -> Result<usize, Refusal>
    ensures means { Means result (page_size desk.now) }
    ensures some { IfOk result (λ size. 0 < size) }
{
    let n = number_of_variable(alloc, &desk.vars, b"screen")?;
    Ok((n as usize).max(1))
}

/// The page that has message n, from 0.
pub fn page_of(desk: &Desk, n: u32, size: usize) -> usize
    requires desk { IsDesk desk.now }
    requires some { 0 < size }
    ensures { result ≡ page_of desk.now n size }
{
    match place_of(&desk.shown, n) {
        Some(place) => place / size,
        None => 0,
    }
}

// The place of the view at which the page begins that has message n.
fn start_of_page(desk: &Desk, n: u32, size: usize) -> usize
    requires desk { IsDesk desk.now }
    requires some { 0 < size }
    ensures start { result ≡ page_of desk.now n size * size }
    ensures within { IsMessageOf desk.now.shown n → result < length desk.now.shown.order }
{
    match place_of(&desk.shown, n) {
        Some(place) => place / size * size,
        None => 0,
    }
}

/// The summary lines of the page that has the current message.
pub fn current_page(alloc: Global, desk: &Desk) -> Result<Text, Refusal>
    requires { IsDesk desk.now }
    ensures { Means result (current_page desk.now) }
{
    let size = page_size(alloc, desk)?;
    let start = start_of_page(desk, desk.shown.current, size);
    let lines = page(alloc, &desk.shown, start, size, desk.places.width)?;
    Ok(lines)
}

// Says the summary lines of a page, which begins at a place of the view, with the current message that is left.
fn says_page(
    alloc: Global,
    desk: &Desk,
    page: usize,
    start: usize,
    size: usize,
    effects: Effects,
) -> Result<Steps, Refusal>
    requires desk { IsDesk desk.now }
    requires start { start ≡ page * size }
    ensures means { Means result (says_page desk.now page size effects) }
    ensures current { IfOk result (λ steps. steps.effects.current ≡ effects.current) }
{
    let width = desk.places.width;
    let current = effects.current.unwrap_or(desk.shown.current);
    let out = page_with_current(alloc, &desk.shown, current, start, size, width)?;
    let page = Some(page);
    says(alloc, out, Effects { page, ..effects })
}

// The page of message n, whose first message becomes current.
fn page_of_message(alloc: Global, desk: &Desk, n: u32, size: usize) -> Result<Steps, Refusal>
    requires desk { IsDesk desk.now }
    requires message { IsMessageOf desk.now.shown n }
    requires some { 0 < size }
    ensures means { Means result (page_of_message desk.now n size) }
    ensures within { IsWithin desk.now result }
{
    let page = page_of(desk, n, size);
    let start = start_of_page(desk, n, size);
    let top = desk.shown.order.items()[start];
    says_page(alloc, desk, page, start, size, moved(alloc, desk, top))
}

/// `headers`.
pub fn headers(alloc: Global, desk: &Desk, words: &[Text]) -> Result<Steps, Refusal>
    requires { IsDesk desk.now }
    ensures means { Means result (headers desk.now words.now) }
    ensures within { IsWithin desk.now result }
{
    if words.is_empty() {
        let size = page_size(alloc, desk)?;
        let page = page_of(desk, desk.shown.current, size);
        let start = start_of_page(desk, desk.shown.current, size);
        return says_page(alloc, desk, page, start, size, unchanged(alloc));
    }
    let numbers = chosen(alloc, words, desk, Purpose::Live)?;
    let n = single(alloc, b"headers", numbers.items())?;
    let size = page_size(alloc, desk)?;
    page_of_message(alloc, desk, n, size)
}

// Prints a page, if its first place is in the view.
fn turned(alloc: Global, desk: &Desk, page: usize, size: usize) -> Result<Steps, Refusal>
    requires { IsDesk desk.now }
    ensures means { Means result (turned desk.now page size) }
    ensures within { IsWithin desk.now result }
{
    match page.checked_mul(size) {
        Some(start) if start < desk.shown.order.items().len() => {
            says_page(alloc, desk, page, start, size, unchanged(alloc))
        }
        _ => Err(fault(alloc, b"", b"at end")),
    }
}

// Prints the page before the last one printed.
fn scrolled_back(alloc: Global, desk: &Desk, size: usize) -> Result<Steps, Refusal>
    requires { IsDesk desk.now }
    ensures means { Means result (scrolled desk.now true size) }
    ensures within { IsWithin desk.now result }
{
    if desk.page == 0 {
        Err(fault(alloc, b"", b"at end"))
    } else {
        turned(alloc, desk, desk.page - 1, size)
    }
}

// Prints the page after the last one printed.
fn scrolled_on(alloc: Global, desk: &Desk, size: usize) -> Result<Steps, Refusal>
    requires desk { IsDesk desk.now }
    requires some { 0 < size }
    ensures means { Means result (scrolled desk.now false size) }
    ensures within { IsWithin desk.now result }
{
    match desk.page.checked_add(1) {
        Some(page) => turned(alloc, desk, page, size),
        None => Err(fault(alloc, b"", b"at end")),
    }
}

/// `z`, `z+`, and `z-`, which goes back.
pub fn scroll(alloc: Global, desk: &Desk, back: bool) -> Result<Steps, Refusal>
    requires { IsDesk desk.now }
    ensures means { Means result (scroll desk.now back) }
    ensures within { IsWithin desk.now result }
{
    let size = page_size(alloc, desk)?;
    if back {
        scrolled_back(alloc, desk, size)
    } else {
        scrolled_on(alloc, desk, size)
    }
}
