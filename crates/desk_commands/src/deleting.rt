// Commands that delete messages and give them back.
ghost use Rattle.std.specs.Prelude.{◌≡◌, ◌≤◌, ◌<◌, ◌∷◌, ◌++◌, [], false, reverse, Some, All, IfOk, IfSome, length};
ghost use Rattle.std.specs.List.{find, range_with_len};
ghost use Rattle.message_state.specs.ShownRows.{IsShown};
ghost use Rattle.message_state.specs.declared.mark.Act.TheVariants as act;
ghost use Rattle.message_list.specs.Places.{before_message};
ghost use Rattle.command_desk.specs.Answers.{Means, says, effects_alone};
ghost use Rattle.message_show.specs.declared.text.How.TheVariants as how;
ghost use Rattle.command_desk.specs.Selecting.{chosen, last_message};
ghost use Rattle.command_desk.specs.Desks.{IsDesk, IsMessageOf, IsWithin};
ghost use Rattle.command_desk.specs.Effects.{written, markings, marked_and_written};
ghost use Rattle.desk_commands.specs.Deleting.{is_left, after_deleting, deleted, print_after, delete_and_print, delete_quietly, delete, give_back, undelete};
ghost use Rattle.command_desk.specs.Messages.{printed};

use command_desk::{
    Desk, Effects, MessageSet, Refusal, Steps, act_on, chosen, effects_alone, last_message, marked,
    marked_and_written, markings, moved, printed, says, unchanged, written,
};
use mail_text::{Memory, Text};
use message_list::{Purpose, in_base, next_live, place_of};
use message_show::How;
use message_state::{Act, Shown, Standing};
use std::alloc::Global;

// Whether message n is live and isn't among those that are deleted now.
fn is_left(shown: &Shown, among: &MessageSet<'_>, n: u32) -> bool
    ensures { result ≡ is_left shown.now among.now n }
{
    in_base(shown, Purpose::Live, n) && !among.has(n)
}

// The last of these messages that is left.
fn nearest_left(shown: &Shown, among: &MessageSet<'_>, messages: &[u32]) -> Option<u32>
    ensures { result ≡ find (is_left shown.now among.now) (reverse messages.now) }
{
    messages
        .iter()
        .rev()
        .copied()
        .find(|n| is_left(shown, among, *n))
}

// The last live message before this one in the view that isn't among those that are deleted now.
fn last_left(
    alloc: Global,
    shown: &Shown,
    numbers: &[u32],
    last: u32,
) -> Result<Option<u32>, Memory>
    requires shown { IsShown shown.now }
    requires messages { All (IsMessageOf shown.now) numbers.now }
    requires last { IsMessageOf shown.now last }
    ensures { IfOk result (λ n. n ≡ find (is_left shown.now numbers.now) (before_message shown.now last)) }
{
    let among = MessageSet::of(alloc, numbers, shown.rows.items().len())?;
    if shown.order.is_by_number() {
        return Ok(left_by_number(shown, &among, last));
    }
    match place_of(shown, last) {
        Some(p) => {
            let (before, _) = shown.order.items().split_at(p);
            Ok(nearest_left(shown, &among, before))
        }
        None => Ok(None),
    }
}

// The last live message before this one in the view by number that isn't among those that are deleted now. It takes no
// walk over deleted messages.
fn left_by_number(shown: &Shown, among: &MessageSet<'_>, last: u32) -> Option<u32>
    requires shown { IsShown shown.now }
    requires by_number { shown.now.order ≡ range_with_len 1 (length shown.now.order) }
    requires message { IsMessageOf shown.now last }
    ensures { result ≡ find (is_left shown.now among.now) (before_message shown.now last) }
{
    let mut end = last as usize - 1;
    while let Some(row) = shown.rows.previous(Standing::Live, end) {
        let n = row as u32 + 1;
        if !among.has(n) {
            return Some(n);
        }
        end = row;
    }
    None
}

/// The message that is current once these were deleted, or None if no message is live.
fn after_deleting(alloc: Global, shown: &Shown, numbers: &[u32]) -> Result<Option<u32>, Memory>
    requires shown { IsShown shown.now }
    requires some { 0 < length numbers.now }
    requires messages { All (IsMessageOf shown.now) numbers.now }
    ensures is { IfOk result (λ n. n ≡ after_deleting shown.now numbers.now) }
    ensures message { IfOk result (λ n. IfSome n (IsMessageOf shown.now)) }
{
    let last = last_message(numbers);
    match next_live(shown, last) {
        Some(n) => Ok(Some(n)),
        None => last_left(alloc, shown, numbers, last),
    }
}

// What deleting these changes.
fn deleted(alloc: Global, desk: &Desk, numbers: &[u32]) -> Result<Effects, Memory>
    requires desk { IsDesk desk.now }
    requires some { 0 < length numbers.now }
    requires messages { All (IsMessageOf desk.now.shown) numbers.now }
    ensures effects { IfOk result (λ effects. effects ≡ deleted desk.now numbers.now) }
    ensures within { IfOk result (λ effects. IfSome effects.current (λ n. n ≤ length desk.now.shown.rows)) }
{
    let n = after_deleting(alloc, &desk.shown, numbers)?;
    let current = n.unwrap_or(desk.shown.current);
    Ok(Effects {
        marks: markings(alloc, Act::Delete, numbers)?,
        ..moved(alloc, desk, current)
    })
}

// What deleting these and printing message n changes.
fn deleted_and_printed(alloc: Global, numbers: &[u32], n: u32) -> Result<Effects, Memory>
    ensures { IfOk result (λ effects. effects ≡ record (written n) {
      marks = markings act.Delete numbers.now ++ markings act.Look (n ∷ []);
    }) }
{
    let mut marks = markings(alloc, Act::Delete, numbers)?;
    marks.push(act_on(Act::Look, n))?;
    Ok(Effects {
        marks,
        ..written(alloc, n)
    })
}

// Deletes these and prints the new current message, if there is one.
fn print_after(
    alloc: Global,
    desk: &Desk,
    numbers: &[u32],
    n: Option<u32>,
) -> Result<Steps, Refusal>
    requires desk { IsDesk desk.now }
    requires message { IfSome n (IsMessageOf desk.now.shown) }
    ensures means { Means result (print_after desk.now numbers.now n) }
    ensures within { IsWithin desk.now result }
{
    match n {
        Some(n) => {
            let out = printed(alloc, desk, How::Kept, n)?;
            let effects = deleted_and_printed(alloc, numbers, n)?;
            says(alloc, out, effects)
        }
        None => {
            let effects = Effects {
                marks: markings(alloc, Act::Delete, numbers)?,
                ..unchanged(alloc)
            };
            says(alloc, Text::copy(alloc, b"at end\n")?, effects)
        }
    }
}

/// `dp`, `dt`.
pub fn delete_and_print(alloc: Global, desk: &Desk, words: &[Text]) -> Result<Steps, Refusal>
    requires { IsDesk desk.now }
    ensures means { Means result (delete_and_print desk.now words.now) }
    ensures within { IsWithin desk.now result }
{
    let numbers = chosen(alloc, words, desk, Purpose::Live)?;
    let n = after_deleting(alloc, &desk.shown, numbers.items())?;
    print_after(alloc, desk, numbers.items(), n)
}

// `delete` without `autoprint`.
fn delete_quietly(alloc: Global, desk: &Desk, words: &[Text]) -> Result<Steps, Refusal>
    requires { IsDesk desk.now }
    ensures means { Means result (delete_quietly desk.now words.now) }
    ensures within { IsWithin desk.now result }
{
    let numbers = chosen(alloc, words, desk, Purpose::Live)?;
    let effects = deleted(alloc, desk, numbers.items())?;
    Ok(effects_alone(alloc, effects))
}

/// `delete`.
pub fn delete(alloc: Global, desk: &Desk, words: &[Text]) -> Result<Steps, Refusal>
    requires { IsDesk desk.now }
    ensures means { Means result (delete desk.now words.now) }
    ensures within { IsWithin desk.now result }
{
    if desk.vars.flag(b"autoprint") {
        delete_and_print(alloc, desk, words)
    } else {
        delete_quietly(alloc, desk, words)
    }
}

// Gives these back and prints the last of them.
fn give_back_and_print(alloc: Global, desk: &Desk, numbers: &[u32]) -> Result<Steps, Refusal>
    requires desk { IsDesk desk.now }
    requires some { 0 < length numbers.now }
    requires messages { All (IsMessageOf desk.now.shown) numbers.now }
    ensures means { Means result (says (printed desk.now how.Kept (last_message numbers.now))
        (marked_and_written act.Undelete numbers.now)) }
    ensures within { IsWithin desk.now result }
{
    let last = last_message(numbers);
    let out = printed(alloc, desk, How::Kept, last)?;
    let effects = marked_and_written(alloc, Act::Undelete, numbers)?;
    says(alloc, out, effects)
}

// Gives these back; the last of them is current.
fn give_back(alloc: Global, desk: &Desk, numbers: &[u32]) -> Result<Steps, Refusal>
    requires desk { IsDesk desk.now }
    requires some { 0 < length numbers.now }
    requires messages { All (IsMessageOf desk.now.shown) numbers.now }
    ensures means { Means result (give_back desk.now numbers.now) }
    ensures within { IsWithin desk.now result }
{
    if desk.vars.flag(b"autoprint") {
        return give_back_and_print(alloc, desk, numbers);
    }
    let effects = marked(alloc, desk, Act::Undelete, numbers)?;
    Ok(effects_alone(alloc, effects))
}

/// `undelete`.
pub fn undelete(alloc: Global, desk: &Desk, words: &[Text]) -> Result<Steps, Refusal>
    requires { IsDesk desk.now }
    ensures means { Means result (undelete desk.now words.now) }
    ensures within { IsWithin desk.now result }
{
    let numbers = chosen(alloc, words, desk, Purpose::Dead)?;
    give_back(alloc, desk, numbers.items())
}
