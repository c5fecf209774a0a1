// What children answer, and what they add to the tape of a host in memory.
ghost use Rattle.std.specs.Prelude.{◌≡◌, true, false, Some, None, IfOk, OnOk, IfSome, drop, is_some, is_none};
ghost use Rattle.host_memory.specs.Children.{given, next_given};
ghost use Rattle.host_memory.specs.Plans.{TapeAdds};
ghost use Rattle.host_memory.specs.Views.{steps_before, part_at};
ghost use Rattle.host_port.specs.declared.event.Event.TheVariants as event;

use crate::Plan;
use crate::calls::{copy_two, failing, tell};
use crate::tape::Tape;
use host_port::{ChildAnswer, Event, ForeignStep};
use mail_text::{Items, Memory, Text};
use std::alloc::Global;

/// The most bytes of a child's output that are kept.
const OUTPUT_LIMIT: usize = 16_777_216;

/// What is run: a program with its arguments and its input.
#[derive(Clone, Copy)]
pub struct Run<'a> {
    pub program: &'a [u8],
    pub args: &'a [Text],
    pub input: &'a [u8],
}

// The same, with bytes of its own.
#[derive(Drop)]
struct Copied {
    program: Text,
    args: Items<Text>,
    input: Text,
}

// A copy of texts.
fn copy_texts(alloc: Global, texts: &[Text]) -> Result<Items<Text>, Memory>
    ensures { IfOk result (λ copies. copies ≡ texts.now) }
{
    let mut copies = Items::new(alloc);
    for text in texts {
        let copy = Text::copy(alloc, text.bytes())?;
        copies.push(copy)?;
    }
    Ok(copies)
}

// The status of a planned answer.
fn status_of(planned: &ChildAnswer) -> i32
    ensures { result ≡ planned.now.status }
{
    planned.status
}

// A planned answer as it is given.
fn given(alloc: Global, planned: &ChildAnswer) -> Result<ChildAnswer, Memory>
    ensures { IfOk result (λ a. a ≡ given planned.now) }
{
    let status = status_of(planned);
    let whole = planned.output.bytes();
    let cut = planned.cut || OUTPUT_LIMIT < whole.len();
    let output = Text::copy(alloc, &whole[..OUTPUT_LIMIT.min(whole.len())])?;
    Ok(ChildAnswer {
        status,
        output,
        cut,
    })
}

/// What the next child answers if `used` of the planned answers are used up.
pub fn next_given(
    alloc: Global,
    planned: &[ChildAnswer],
    used: usize,
) -> Result<ChildAnswer, Memory>
    ensures { IfOk result (λ a. a ≡ next_given (drop used planned.now)) }
{
    match planned.get(used) {
        Some(next) => given(alloc, next),
        None => Ok(ChildAnswer {
            status: 0,
            output: Text::new(alloc),
            cut: false,
        }),
    }
}

/// How many of the planned answers are used up after one child more.
pub fn used_after(planned: &[ChildAnswer], used: usize) -> usize
    ensures { drop result planned.now ≡ drop 1 (drop used planned.now) }
{
    if used < planned.len() { used + 1 } else { used }
}

// Copies of what is run.
fn copy_run(alloc: Global, run: Run<'_>) -> Result<Copied, Memory>
    ensures { IfOk result
        (λ c. c ≡ record {
          program = run.entry.program.now;
          args = run.entry.args.now;
          input = run.entry.input.now;
        }) }
{
    let (program, input) = copy_two(alloc, run.program, run.input)?;
    match copy_texts(alloc, run.args) {
        Ok(args) => Ok(Copied {
            program,
            args,
            input,
        }),
        Err(memory) => {
            drop(program);
            drop(input);
            Err(memory)
        }
    }
}

// The event of a child.
fn child_event(
    alloc: Global,
    run: Run<'_>,
    answer: Option<ChildAnswer>,
    failed: bool,
) -> Result<Event, Memory>
    ensures { IfOk result
        (λ e. e ≡ event.Child run.entry.program.now run.entry.args.now run.entry.input.now answer failed) }
{
    match copy_run(alloc, run) {
        Ok(
            Copied {
                program,
                args,
                input,
            },
        ) => Ok(Event::Child {
            program,
            args,
            input,
            answer,
            failed,
        }),
        Err(memory) => {
            drop(answer);
            Err(memory)
        }
    }
}

// The event of a child that answers what is next.
fn answered_child(
    alloc: Global,
    run: Run<'_>,
    planned: &[ChildAnswer],
    used: usize,
) -> Result<Event, Memory>
    ensures { IfOk result
        (λ e. e
        ≡ event.Child run.entry.program.now run.entry.args.now run.entry.input.now
        (Some (next_given (drop used planned.now))) false) }
{
    let told = next_given(alloc, planned, used)?;
    child_event(alloc, run, Some(told), false)
}

// Tells that a child ran, and gives its answer.
fn tell_answer(
    alloc: Global,
    plan: &Plan,
    used: usize,
    call: u64,
    tape: &mut Tape,
    run: Run<'_>,
) -> Result<ChildAnswer, Memory>
    ensures ok { IfOk result
        (λ a. TapeAdds tape.old tape.new (steps_before plan.entry.now.foreign call)
        (event.Child run.entry.program.now run.entry.args.now run.entry.input.now (Some a) false)) }
    ensures given { IfOk result (λ a. a ≡ next_given (drop used plan.entry.now.children)) }
    ensures start { tape.new.start ≡ tape.old.start }
{
    let planned = plan.children.items();
    let event = answered_child(alloc, run, planned, used)?;
    tell(alloc, plan.foreign.items(), call, tape, event)?;
    next_given(alloc, planned, used)
}

// Tells that a child could not be run.
fn tell_failure(
    alloc: Global,
    plan: &[(u64, ForeignStep)],
    call: u64,
    tape: &mut Tape,
    run: Run<'_>,
) -> Result<(), Memory>
    ensures ok { OnOk result
        (TapeAdds tape.old tape.new (steps_before plan.now call)
        (event.Child run.entry.program.now run.entry.args.now run.entry.input.now None true)) }
    ensures start { tape.new.start ≡ tape.old.start }
{
    let event = child_event(alloc, run, None, true)?;
    tell(alloc, plan, call, tape, event)
}

/// Tells of a child what the plan has for it, and gives its answer, or None if it could not be run.
pub fn tell_child(
    alloc: Global,
    plan: &Plan,
    used: usize,
    call: u64,
    tape: &mut Tape,
    run: Run<'_>,
) -> Result<Option<ChildAnswer>, Memory>
    ensures ok { IfOk result
        (λ o. TapeAdds tape.old tape.new (steps_before plan.entry.now.foreign call)
        (event.Child run.entry.program.now run.entry.args.now run.entry.input.now o (is_none o))) }
    ensures fails { IfOk result (λ o. is_none o ≡ is_some (part_at plan.entry.now.fails call)) }
    ensures given { IfOk result (λ o. IfSome o (λ a. a ≡ next_given (drop used plan.entry.now.children))) }
    ensures start { tape.new.start ≡ tape.old.start }
{
    if failing(plan.fails.items(), call).is_some() {
        tell_failure(alloc, plan.foreign.items(), call, tape, run)?;
        return Ok(None);
    }
    let answer = tell_answer(alloc, plan, used, call, tape, run)?;
    Ok(Some(answer))
}
