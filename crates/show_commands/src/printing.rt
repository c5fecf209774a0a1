// Commands that print messages, or of messages.
ghost use Rattle.std.specs.Prelude.{◌≡◌, ◌<◌, ◌++◌, true, All, IfOk, OnOk, IfSome, length, nat_lt};
ghost use Rattle.std.specs.List.{flat_map, range_with_len};
ghost use Rattle.std.specs.Option.{option_map_or};
ghost use Rattle.command_desk.specs.Answers.{Means};
ghost use Rattle.command_desk.specs.Desks.{IsDesk, IsMessageOf, IsWithin};
ghost use Rattle.show_commands.specs.Printing.{print, number_of_variable, topped, top, print_next, following, following_of, print_following};
ghost use Rattle.command_desk.specs.Messages.{printed};

use command_desk::{
    Desk, MessageSet, Refusal, Steps, chosen, fault, marked_and_written, message, printed,
    put_heading, put_printed, says,
};
use mail_text::{Memory, Text};
use mailx_vars::{VarError, Vars};
use message_list::{Purpose, in_base, next_live, place_of};
use message_show::{How, top as top_lines};
use message_state::Act;
use std::alloc::Global;

// Some messages as they are printed.
fn printed_all(alloc: Global, desk: &Desk, how: How, numbers: &[u32]) -> Result<Text, Memory>
    requires desk { IsDesk desk.now }
    requires messages { All (IsMessageOf desk.now.shown) numbers.now }
    ensures { IfOk result (λ t. t ≡ flat_map (printed desk.now how) numbers.now) }
{
    let mut out = Text::new(alloc);
    for n in numbers {
        put_printed(alloc, &mut out, desk, how, *n)?;
    }
    Ok(out)
}

/// `print`, `type`, `Print`, `Type`.
pub fn print(alloc: Global, desk: &Desk, words: &[Text], how: How) -> Result<Steps, Refusal>
    requires { IsDesk desk.now }
    ensures means { Means result (print how desk.now words.now) }
    ensures within { IsWithin desk.now result }
{
    let numbers = chosen(alloc, words, desk, Purpose::Live)?;
    let out = printed_all(alloc, desk, how, numbers.items())?;
    let effects = marked_and_written(alloc, Act::Look, numbers.items())?;
    says(alloc, out, effects)
}

/// The number that a variable's value writes.
pub(crate) fn number_of_variable(alloc: Global, vars: &Vars, name: &[u8]) -> Result<u64, Refusal>
    ensures { Means result (number_of_variable vars.now name.now) }
{
    match vars.number(name) {
        Ok(n) => Ok(n),
        Err(VarError::Memory) => Err(Refusal::Memory),
        Err(_) => Err(fault(alloc, name, b": not a number")),
    }
}

// Puts the first lines of a message.
fn put_topped(alloc: Global, out: &mut Text, desk: &Desk, count: u64, n: u32) -> Result<(), Memory>
    requires desk { IsDesk desk.now }
    requires message { IsMessageOf desk.now.shown n }
    ensures { OnOk result (out.new ≡ out.old ++ topped desk.now count n) }
{
    put_heading(out, n)?;
    let lines = top_lines(alloc, &message(desk, n), &desk.sets, count)?;
    out.push(lines.bytes())
}

// The first lines of some messages.
fn topped_all(alloc: Global, desk: &Desk, count: u64, numbers: &[u32]) -> Result<Text, Memory>
    requires desk { IsDesk desk.now }
    requires messages { All (IsMessageOf desk.now.shown) numbers.now }
    ensures { IfOk result (λ t. t ≡ flat_map (topped desk.now count) numbers.now) }
{
    let mut out = Text::new(alloc);
    for n in numbers {
        put_topped(alloc, &mut out, desk, count, *n)?;
    }
    Ok(out)
}

/// `top`.
pub fn top(alloc: Global, desk: &Desk, words: &[Text]) -> Result<Steps, Refusal>
    requires { IsDesk desk.now }
    ensures means { Means result (top desk.now words.now) }
    ensures within { IsWithin desk.now result }
{
    let numbers = chosen(alloc, words, desk, Purpose::Live)?;
    let count = number_of_variable(alloc, &desk.vars, b"toplines")?;
    let out = topped_all(alloc, desk, count, numbers.items())?;
    let effects = marked_and_written(alloc, Act::Look, numbers.items())?;
    says(alloc, out, effects)
}

// Prints the message, if there is one.
fn print_next(alloc: Global, desk: &Desk, n: Option<u32>) -> Result<Steps, Refusal>
    requires desk { IsDesk desk.now }
    requires message { IfSome n (IsMessageOf desk.now.shown) }
    ensures means { Means result (print_next desk.now n) }
    ensures within { IsWithin desk.now result }
{
    match n {
        Some(n) => {
            let out = printed(alloc, desk, How::Kept, n)?;
            let effects = marked_and_written(alloc, Act::Look, &[n])?;
            says(alloc, out, effects)
        }
        None => Err(fault(alloc, b"", b"at end")),
    }
}

// What `next` prints without words.
fn following(desk: &Desk) -> Option<u32>
    requires { IsDesk desk.now }
    ensures next { result ≡ following desk.now }
    ensures message { IfSome result (IsMessageOf desk.now.shown) }
{
    let current = desk.shown.current;
    if in_base(&desk.shown, Purpose::Live, current) && desk.unprinted {
        return Some(current);
    }
    next_live(&desk.shown, current)
}

// The first of some messages that stands after the current one in the view by number.
fn least_above(desk: &Desk, numbers: &[u32]) -> Option<u32>
    requires desk { IsDesk desk.now }
    requires by_number { desk.now.shown.order ≡ range_with_len 1 (length desk.now.shown.order) }
    requires messages { All (IsMessageOf desk.now.shown) numbers.now }
    ensures { result ≡ following_of desk.now numbers.now }
{
    let current = desk.shown.current;
    if current == 0 {
        return None;
    }
    let mut least = None;
    for n in numbers {
        if *n > current && is_less(*n, least) {
            least = Some(*n);
        }
    }
    least
}

// Whether a number is less than one that may not be there.
fn is_less(n: u32, other: Option<u32>) -> bool
    ensures { result ≡ option_map_or (λ m. nat_lt n m) other true }
{
    match other {
        Some(m) => n < m,
        None => true,
    }
}

// The first of some messages that stands after the current one in the view.
fn following_of(alloc: Global, desk: &Desk, numbers: &[u32]) -> Result<Option<u32>, Memory>
    requires desk { IsDesk desk.now }
    requires messages { All (IsMessageOf desk.now.shown) numbers.now }
    ensures { IfOk result (λ n. n ≡ following_of desk.now numbers.now) }
{
    let shown = &desk.shown;
    if shown.order.is_by_number() {
        return Ok(least_above(desk, numbers));
    }
    let among = MessageSet::of(alloc, numbers, shown.rows.items().len())?;
    match place_of(shown, shown.current) {
        Some(place) => {
            let (_, after) = shown.order.items().split_at(place + 1);
            Ok(after.iter().copied().find(|n| among.has(*n)))
        }
        None => Ok(None),
    }
}

/// `next`.
pub fn print_following(alloc: Global, desk: &Desk, words: &[Text]) -> Result<Steps, Refusal>
    requires { IsDesk desk.now }
    ensures means { Means result (print_following desk.now words.now) }
    ensures within { IsWithin desk.now result }
{
    if words.is_empty() {
        return print_next(alloc, desk, following(desk));
    }
    let numbers = chosen(alloc, words, desk, Purpose::Live)?;
    let n = following_of(alloc, desk, numbers.items())?;
    print_next(alloc, desk, n)
}
