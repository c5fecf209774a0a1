// What an answer comes to.
ghost use Rattle.std.specs.Prelude.{◌≡◌, ◌++◌, true, Some, IfOk, OnOk, OnErr};
ghost use Rattle.compose_tilde.specs.Values.{with_body, appended};
ghost use Rattle.compose_tilde.specs.Steps.{Means, goes_on, says};
ghost use Rattle.compose_tilde.specs.Answering.{is_awaited, is_zero, status_line, said_of, told, take_output, filter, take_edited, answered, idle, answer_step};

use crate::machine::{Machine, Wait};
use crate::meaning::take;
use crate::need::{Answer, ComposeError, Need};
use crate::values::append;
use host_port::{ChildAnswer, EditAnswer};
use itoa::Buffer;
use mail_text::{Memory, Text};
use std::alloc::Global;

// Whether the answer is one to what is waited for.
pub(crate) fn is_awaited(wait: Wait, answer: &Answer) -> bool
    ensures { result ≡ is_awaited wait answer.now }
{
    match answer {
        Answer::Loaded(_) => matches!(wait, Wait::File),
        Answer::Ran(_) => matches!(wait, Wait::Said | Wait::Taken | Wait::Filtered),
        Answer::Edited(_) => matches!(wait, Wait::Edited),
        Answer::Carried => matches!(wait, Wait::Carried),
    }
}

// Whether a status is 0.
fn is_zero(status: i32) -> bool
    ensures { result ≡ is_zero status }
{
    status == 0
}

// Puts what is printed of a command's status.
fn put_status(out: &mut Text, status: i32) -> Result<(), Memory>
    ensures { OnOk result (out.new ≡ out.old ++ status_line status) }
{
    if is_zero(status) {
        return Ok(());
    }
    let mut buffer = Buffer::new();
    out.push(b"exit status ")?;
    out.push(buffer.format(status).as_bytes())?;
    out.push(b"\n")
}

// What is printed of a command's status.
fn status_line(alloc: Global, status: i32) -> Result<Text, Memory>
    ensures { IfOk result (λ t. t ≡ status_line status) }
{
    let mut out = Text::new(alloc);
    put_status(&mut out, status)?;
    Ok(out)
}

// What is needed once a command has ended: what there is to be printed of its status is printed.
fn told(alloc: Global, status: i32) -> Result<Need, Memory>
    ensures { IfOk result (λ need. need ≡ told status) }
{
    if is_zero(status) {
        Ok(Need::More)
    } else {
        Ok(Need::Say(status_line(alloc, status)?))
    }
}

/// What is printed of a command that was run: its output, as far as it was kept, and after it `exit status N` if its
/// status isn't 0.
pub fn said_of(child: ChildAnswer) -> Result<Text, Memory>
    ensures { IfOk result (λ t. t ≡ said_of child) }
{
    let ChildAnswer {
        status,
        output,
        cut: _,
    } = child;
    let mut out = output;
    put_status(&mut out, status)?;
    Ok(out)
}

// The output of a command is printed.
fn say_output(child: ChildAnswer) -> Result<Need, Memory>
    ensures { IfOk result (λ need. need ≡ Need.Say (said_of child)) }
{
    Ok(Need::Say(said_of(child)?))
}

// The body takes the output of a command, if it wasn't cut.
fn take_output(
    alloc: Global,
    machine: &mut Machine,
    child: ChildAnswer,
) -> Result<Need, ComposeError>
    ensures means { Means result machine.new (take_output machine.old child) }
    ensures stays { OnErr result (machine.new ≡ machine.old) }
{
    if child.cut {
        return Err(ComposeError::TooMuch);
    }
    let need = told(alloc, child.status)?;
    append(alloc, &mut machine.draft, child.output.bytes())?;
    Ok(need)
}

// The body becomes these bytes.
fn put_body(machine: &mut Machine, bytes: Text) -> Result<Need, ComposeError>
    ensures means { Means result machine.new (goes_on machine.old (with_body machine.old.draft bytes)) }
    ensures stays { OnErr result (machine.new ≡ machine.old) }
{
    machine.draft.body = bytes;
    Ok(Need::More)
}

// The output replaces the body if the status is 0 and the output wasn't cut.
fn filter(alloc: Global, machine: &mut Machine, child: ChildAnswer) -> Result<Need, ComposeError>
    ensures means { Means result machine.new (filter machine.old child) }
    ensures stays { OnErr result (machine.new ≡ machine.old) }
{
    let ChildAnswer {
        status,
        output,
        cut,
    } = child;
    if !is_zero(status) {
        let out = status_line(alloc, status)?;
        return Ok(Need::Say(out));
    }
    if cut {
        Err(ComposeError::TooMuch)
    } else {
        put_body(machine, output)
    }
}

// What an editor left replaces the body if the status is 0 and it wasn't cut.
fn take_edited(alloc: Global, machine: &mut Machine, edit: EditAnswer) -> Result<Need, ComposeError>
    ensures means { Means result machine.new (take_edited machine.old edit) }
    ensures stays { OnErr result (machine.new ≡ machine.old) }
{
    let EditAnswer { status, text, cut } = edit;
    if !is_zero(status) {
        let out = status_line(alloc, status)?;
        return Ok(Need::Say(out));
    }
    if cut {
        Err(ComposeError::TooMuch)
    } else {
        put_body(machine, text)
    }
}

// What an answer comes to, by what was waited for.
fn answered(
    alloc: Global,
    wait: Wait,
    answer: Answer,
    machine: &mut Machine,
) -> Result<Need, ComposeError>
    ensures means { Means result machine.new (answered wait answer machine.old) }
    ensures stays { OnErr result (machine.new ≡ machine.old) }
{
    match (wait, answer) {
        (Wait::File, Answer::Loaded(bytes)) => take(alloc, machine, bytes.bytes()),
        (Wait::Said, Answer::Ran(child)) => Ok(say_output(child)?),
        (Wait::Taken, Answer::Ran(child)) => take_output(alloc, machine, child),
        (Wait::Filtered, Answer::Ran(child)) => filter(alloc, machine, child),
        (Wait::Edited, Answer::Edited(edit)) => take_edited(alloc, machine, edit),
        _ => Ok(Need::More),
    }
}

// What an answer comes to: the waiting ends.
#[tactic(auto, unfolding(crate::specs::Answering::answer_step))]
pub(crate) fn answer_step(
    alloc: Global,
    machine: &mut Machine,
    answer: Answer,
) -> Result<Need, ComposeError>
    ensures means { Means result machine.new (answer_step machine.old answer) }
    ensures stays { OnErr result (machine.new ≡ idle machine.old) }
{
    match machine.waits.take() {
        Some(wait) => answered(alloc, wait, answer, machine),
        None => Ok(Need::More),
    }
}
