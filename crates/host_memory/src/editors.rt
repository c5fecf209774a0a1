// What editors answer, and what they add to the tape of a host in memory.
ghost use Rattle.std.specs.Prelude.{◌≡◌, true, false, Some, None, IfOk, OnOk, IfSome, drop, is_some, is_none};
ghost use Rattle.host_memory.specs.Edits.{edit_given, next_edit};
ghost use Rattle.host_memory.specs.Plans.{TapeAdds};
ghost use Rattle.host_memory.specs.Views.{steps_before, part_at};
ghost use Rattle.host_port.specs.declared.event.Event.TheVariants as event;

use crate::Plan;
use crate::calls::{copy_two, failing, tell};
use crate::tape::Tape;
use host_port::{EditAnswer, Event, ForeignStep};
use mail_text::{Memory, Text};
use std::alloc::Global;

/// The most bytes of an editor's text that are kept.
const TEXT_LIMIT: usize = 16_777_216;

/// What is edited: the name of the file, the shell and the command that it runs, and the text.
#[derive(Clone, Copy)]
pub struct Editing<'a> {
    pub name: &'a [u8],
    pub shell: &'a [u8],
    pub command: &'a [u8],
    pub text: &'a [u8],
}

// The same, with bytes of its own.
#[derive(Drop)]
struct Copied {
    name: Text,
    shell: Text,
    command: Text,
    text: Text,
}

// An answer as it is given.
fn edit_given(alloc: Global, status: i32, text: &[u8], cut: bool) -> Result<EditAnswer, Memory>
    ensures { IfOk result (λ a. a ≡ edit_given status text.now cut) }
{
    let long = cut || TEXT_LIMIT < text.len();
    let front = Text::copy(alloc, &text[..TEXT_LIMIT.min(text.len())])?;
    Ok(EditAnswer {
        status,
        text: front,
        cut: long,
    })
}

// The status of a planned answer.
fn status_of(planned: &EditAnswer) -> i32
    ensures { result ≡ planned.now.status }
{
    planned.status
}

// What the next editor answers for a text if `edited` of the planned answers are used up.
fn next_edit(
    alloc: Global,
    planned: &[EditAnswer],
    edited: usize,
    text: &[u8],
) -> Result<EditAnswer, Memory>
    ensures { IfOk result (λ a. a ≡ next_edit text.now (drop edited planned.now)) }
{
    match planned.get(edited) {
        Some(next) => edit_given(alloc, status_of(next), next.text.bytes(), next.cut),
        None => edit_given(alloc, 0, text, false),
    }
}

/// How many of the planned answers are used up after one editor more.
pub fn edited_after(planned: &[EditAnswer], edited: usize) -> usize
    ensures { drop result planned.now ≡ drop 1 (drop edited planned.now) }
{
    if edited < planned.len() {
        edited + 1
    } else {
        edited
    }
}

// Copies of what is edited.
fn copy_editing(alloc: Global, editing: Editing<'_>) -> Result<Copied, Memory>
    ensures { IfOk result
        (λ c. c ≡ record {
          name = editing.entry.name.now;
          shell = editing.entry.shell.now;
          command = editing.entry.command.now;
          text = editing.entry.text.now;
        }) }
{
    let (name, shell) = copy_two(alloc, editing.name, editing.shell)?;
    match copy_two(alloc, editing.command, editing.text) {
        Ok((command, text)) => Ok(Copied {
            name,
            shell,
            command,
            text,
        }),
        Err(memory) => {
            drop(name);
            drop(shell);
            Err(memory)
        }
    }
}

// The event of an editor.
fn edit_event(
    alloc: Global,
    editing: Editing<'_>,
    answer: Option<EditAnswer>,
    failed: bool,
) -> Result<Event, Memory>
    ensures { IfOk result
        (λ e. e ≡ event.Edit editing.entry.name.now editing.entry.shell.now editing.entry.command.now editing.entry.text.now
        answer failed) }
{
    match copy_editing(alloc, editing) {
        Ok(
            Copied {
                name,
                shell,
                command,
                text,
            },
        ) => Ok(Event::Edit {
            name,
            shell,
            command,
            text,
            answer,
            failed,
        }),
        Err(memory) => {
            drop(answer);
            Err(memory)
        }
    }
}

// The event of an editor that answers what is next.
fn edited_event(
    alloc: Global,
    planned: &[EditAnswer],
    edited: usize,
    editing: Editing<'_>,
) -> Result<Event, Memory>
    ensures { IfOk result
        (λ e. e ≡ event.Edit editing.entry.name.now editing.entry.shell.now editing.entry.command.now editing.entry.text.now
        (Some (next_edit editing.entry.text.now (drop edited planned.now))) false) }
{
    let told = next_edit(alloc, planned, edited, editing.text)?;
    edit_event(alloc, editing, Some(told), false)
}

// Tells that an editor ran, and gives its answer.
fn tell_edited(
    alloc: Global,
    plan: &Plan,
    edited: usize,
    call: u64,
    tape: &mut Tape,
    editing: Editing<'_>,
) -> Result<EditAnswer, Memory>
    ensures ok { IfOk result
        (λ a. TapeAdds tape.old tape.new (steps_before plan.entry.now.foreign call)
        (event.Edit editing.entry.name.now editing.entry.shell.now editing.entry.command.now editing.entry.text.now
        (Some a) false)) }
    ensures given { IfOk result (λ a. a ≡ next_edit editing.entry.text.now (drop edited plan.entry.now.edits)) }
    ensures start { tape.new.start ≡ tape.old.start }
{
    let planned = plan.edits.items();
    let event = edited_event(alloc, planned, edited, editing)?;
    tell(alloc, plan.foreign.items(), call, tape, event)?;
    next_edit(alloc, planned, edited, editing.text)
}

// Tells that an editor could not be run.
fn tell_unedited(
    alloc: Global,
    plan: &[(u64, ForeignStep)],
    call: u64,
    tape: &mut Tape,
    editing: Editing<'_>,
) -> Result<(), Memory>
    ensures ok { OnOk result
        (TapeAdds tape.old tape.new (steps_before plan.now call)
        (event.Edit editing.entry.name.now editing.entry.shell.now editing.entry.command.now editing.entry.text.now
        None true)) }
    ensures start { tape.new.start ≡ tape.old.start }
{
    let event = edit_event(alloc, editing, None, true)?;
    tell(alloc, plan, call, tape, event)
}

/// Tells of an editor what the plan has for it, and gives its answer, or None if it could not be run.
pub fn tell_edit(
    alloc: Global,
    plan: &Plan,
    edited: usize,
    call: u64,
    tape: &mut Tape,
    editing: Editing<'_>,
) -> Result<Option<EditAnswer>, Memory>
    ensures ok { IfOk result
        (λ o. TapeAdds tape.old tape.new (steps_before plan.entry.now.foreign call)
        (event.Edit editing.entry.name.now editing.entry.shell.now editing.entry.command.now editing.entry.text.now
        o (is_none o))) }
    ensures fails { IfOk result (λ o. is_none o ≡ is_some (part_at plan.entry.now.fails call)) }
    ensures given { IfOk result (λ o. IfSome o
        (λ a. a ≡ next_edit editing.entry.text.now (drop edited plan.entry.now.edits))) }
    ensures start { tape.new.start ≡ tape.old.start }
{
    if failing(plan.fails.items(), call).is_some() {
        tell_unedited(alloc, plan.foreign.items(), call, tape, editing)?;
        return Ok(None);
    }
    let answer = tell_edited(alloc, plan, edited, call, tape, editing)?;
    Ok(Some(answer))
}
