// What a line comes to.
ghost use Rattle.std.specs.Prelude.{◌≡◌, Some, None, false, if◌then◌else◌, IfOk, OnErr};
ghost use Rattle.mail_text.specs.Lines.{with_feed};
ghost use Rattle.compose_tilde.specs.Views.{view_of, IsView};
ghost use Rattle.compose_tilde.specs.Values.{appended, replaced, put_value};
ghost use Rattle.compose_tilde.specs.Steps.{Means, goes_on};
ghost use Rattle.compose_tilde.specs.Written.{written_of};
ghost use Rattle.compose_tilde.specs.Lines.{asks_subject, with_letter, written_step, draft_line, next_value, begun, subject_or_line, line_step};
ghost use Rattle.compose_tilde.specs.Escapes.{escape_of};

use crate::escape::{escape_of, takes};
use crate::machine::{Machine, Names, Part};
use crate::meaning::{meaning, subject};
use crate::need::{ComposeError, Need};
use crate::reading::{Written, argument, escape_byte, given_for, is_end, reading_of};
use crate::saying::{part_after, prompt};
use crate::values::{append_line, set_names, set_subject};
use crate::view::ComposeView;
use draft_text::Draft;
use line_words::words_of;
use mail_text::Memory;
use std::alloc::Global;

// Whether the next line is the subject.
pub(crate) fn asks_subject(machine: &Machine, view: &ComposeView<'_>) -> bool
    ensures { result ≡ asks_subject machine.now (view_of view.now) }
{
    !machine.taken
        && machine.header.is_none()
        && view.terminal
        && view.vars.flag(b"asksub")
        && machine.draft.subject.bytes().is_empty()
}

// An escape, if its letter stands for one, with the rest of its line.
fn escape_line(
    alloc: Global,
    machine: &mut Machine,
    letter: u8,
    rest: &[u8],
    view: &ComposeView<'_>,
) -> Result<Need, ComposeError>
    requires { IsView (view_of view.now) }
    ensures means { Means result machine.new
        (with_letter (escape_of letter) letter rest.now machine.old (view_of view.now)) }
    ensures stays { OnErr result (machine.new ≡ machine.old) }
{
    match escape_of(letter) {
        Some(escape) => {
            let found = given_for(alloc, takes(escape), argument(rest))?;
            match found {
                Some(given) => meaning(alloc, escape, machine, given, view),
                None => Err(ComposeError::BadArguments { letter }),
            }
        }
        None => Err(ComposeError::Unknown {
            letter: Some(letter),
        }),
    }
}

// Bytes for the body.
fn plain_line(alloc: Global, machine: &mut Machine, line: &[u8]) -> Result<Need, ComposeError>
    ensures means { Means result machine.new
        (goes_on machine.old (appended machine.old.draft (with_feed line.now))) }
    ensures stays { OnErr result (machine.new ≡ machine.old) }
{
    append_line(alloc, &mut machine.draft, line)?;
    Ok(Need::More)
}

// Bytes for the body, or an escape.
fn written_line(
    alloc: Global,
    machine: &mut Machine,
    written: Written<'_>,
    view: &ComposeView<'_>,
) -> Result<Need, ComposeError>
    requires { IsView (view_of view.now) }
    ensures means { Means result machine.new (written_step (written_of written.entry) machine.old (view_of view.now)) }
    ensures stays { OnErr result (machine.new ≡ machine.old) }
{
    match written {
        Written::Plain(line) => plain_line(alloc, machine, line),
        Written::Alone => Err(ComposeError::Unknown { letter: None }),
        Written::Escaped(letter, rest) => escape_line(alloc, machine, letter, rest, view),
    }
}

// A line of the draft.
fn draft_line(
    alloc: Global,
    machine: &mut Machine,
    line: &[u8],
    view: &ComposeView<'_>,
) -> Result<Need, ComposeError>
    requires { IsView (view_of view.now) }
    ensures means { Means result machine.new (draft_line machine.old line.now (view_of view.now)) }
    ensures stays { OnErr result (machine.new ≡ machine.old) }
{
    if is_end(view.vars, line) {
        return Ok(Need::Done);
    }
    let mark = escape_byte(view.vars);
    written_line(alloc, machine, reading_of(mark, line), view)
}

// The value that `~h` asked for is set to a line, which isn't empty. False if a quote in it isn't closed.
fn replace(alloc: Global, draft: &mut Draft, part: Part, line: &[u8]) -> Result<bool, Memory>
    ensures put { IfOk result (λ put. replaced draft.old part line.now ≡ (if put then Some draft.new else None)) }
    ensures stays { IfOk result (λ put. put ≡ false → draft.new ≡ draft.old) }
    ensures err { OnErr result (draft.new ≡ draft.old) }
{
    match part {
        Part::Subject => {
            set_subject(alloc, draft, line)?;
            Ok(true)
        }
        Part::Names(names) => {
            let words = words_of(alloc, line)?;
            match words {
                Some(words) => {
                    set_names(alloc, draft, names, words.items())?;
                    Ok(true)
                }
                None => Ok(false),
            }
        }
    }
}

// The value that `~h` asked for is set to a line; an empty one leaves it. False if a quote in the line isn't closed.
fn put_value(alloc: Global, draft: &mut Draft, part: Part, line: &[u8]) -> Result<bool, Memory>
    ensures put { IfOk result (λ put. put_value draft.old part line.now ≡ (if put then Some draft.new else None)) }
    ensures stays { IfOk result (λ put. put ≡ false → draft.new ≡ draft.old) }
    ensures err { OnErr result (draft.new ≡ draft.old) }
{
    if line.is_empty() {
        Ok(true)
    } else {
        replace(alloc, draft, part, line)
    }
}

// A line if `~h` asks for a value.
fn value_line(
    alloc: Global,
    machine: &mut Machine,
    part: Part,
    line: &[u8],
) -> Result<Need, ComposeError>
    ensures means { Means result machine.new
        (next_value machine.old part (put_value machine.old.draft part line.now)) }
    ensures stays { OnErr result (machine.new ≡ machine.old) }
{
    let next = part_after(part);
    let need = prompt(alloc, next)?;
    let put = put_value(alloc, &mut machine.draft, part, line)?;
    if put {
        machine.header = next;
        Ok(need)
    } else {
        Err(ComposeError::BadArguments { letter: b'h' })
    }
}

// A line if `~h` asks for no value: the subject, if that is asked for, or a line of the draft.
fn subject_or_line(
    alloc: Global,
    machine: &mut Machine,
    line: &[u8],
    view: &ComposeView<'_>,
) -> Result<Need, ComposeError>
    requires { IsView (view_of view.now) }
    ensures means { Means result machine.new (subject_or_line machine.old line.now (view_of view.now)) }
    ensures stays { OnErr result (machine.new ≡ machine.old) }
{
    if asks_subject(machine, view) {
        subject(alloc, machine, line)
    } else {
        draft_line(alloc, machine, line, view)
    }
}

// A line if `~h` asks for no value, after which the machine has taken a line, unless it was refused.
fn next_line(
    alloc: Global,
    machine: &mut Machine,
    line: &[u8],
    view: &ComposeView<'_>,
) -> Result<Need, ComposeError>
    requires { IsView (view_of view.now) }
    ensures means { Means result machine.new (begun (subject_or_line machine.old line.now (view_of view.now))) }
    ensures stays { OnErr result (machine.new ≡ machine.old) }
{
    let need = subject_or_line(alloc, machine, line, view)?;
    machine.taken = true;
    Ok(need)
}

// What a line comes to.
#[tactic(auto, unfolding(crate::specs::Lines::line_step))]
pub(crate) fn line_step(
    alloc: Global,
    machine: &mut Machine,
    line: &[u8],
    view: &ComposeView<'_>,
) -> Result<Need, ComposeError>
    requires { IsView (view_of view.now) }
    ensures means { Means result machine.new (line_step machine.old line.now (view_of view.now)) }
    ensures stays { OnErr result (machine.new ≡ machine.old) }
{
    match machine.header {
        Some(part) => value_line(alloc, machine, part, line),
        None => next_line(alloc, machine, line, view),
    }
}
