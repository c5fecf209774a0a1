// What commits whose calls fail say of whether they were decided.
use crate::carrying::{Decided, Program, Run, carry_out};
use crate::judging::count_own;
use crate::scripts::Script;
use crate::turning::{RECORD, first, is_deciding};
use case_blocks::{Answer, Cut, count_cuts, cut_at};
use host_port::{Event, Seen};
use mail_text::Memory;

// How often each thing was said, and how often that didn't agree with the events.
#[derive(Clone, Copy)]
struct Said {
    decided: u64,
    not_decided: u64,
    unknown: u64,
    wrong: u64,
}

// Whether an event behind these is the publication that decides, and was done, failed or not.
fn decides(before: &[Event], event: &Event, out: &Answer) -> bool {
    match event {
        Event::Publish { done: true, .. } => is_deciding(out.alloc(), before, event),
        _ => false,
    }
}

// Whether an event behind these is a load of the record that failed right behind the publication that decides.
fn doubts(before: &[Event], event: &Event, out: &Answer) -> bool {
    match (before.split_last(), event) {
        (
            Some((last, rest)),
            Event::Load {
                name,
                seen: Seen::Failed,
            },
        ) => name.bytes() == RECORD && is_deciding(out.alloc(), rest, last),
        _ => false,
    }
}

// What is asked of the events of a commit: whether they decide it, or whether nobody can know from them if it was decided.
#[derive(Clone, Copy)]
enum Asked {
    Decided,
    Doubtful,
}

fn has(asked: Asked, events: &[Event], out: &Answer) -> bool {
    for (k, event) in events.iter().enumerate() {
        let before = first(events, k);
        let is = match asked {
            Asked::Decided => decides(before, event, out),
            Asked::Doubtful => doubts(before, event, out),
        };
        if is {
            return true;
        }
    }
    false
}

// Whether what a run says agrees with its events.
fn agrees(run: &Run, out: &Answer) -> bool {
    let events = run.host.trace();
    match run.ending.decided {
        None => run.ending.status == 0 && has(Asked::Decided, events, out),
        Some(Decided::Yes) => has(Asked::Decided, events, out),
        Some(Decided::No) => !has(Asked::Decided, events, out),
        Some(Decided::Unknown) => has(Asked::Doubtful, events, out),
    }
}

// Counts what a run says.
fn count(said: &mut Said, run: &Run, out: &Answer) {
    match run.ending.decided {
        None => {}
        Some(Decided::Yes) => said.decided = said.decided.saturating_add(1),
        Some(Decided::No) => said.not_decided = said.not_decided.saturating_add(1),
        Some(Decided::Unknown) => said.unknown = said.unknown.saturating_add(1),
    }
    if !agrees(run, out) {
        said.wrong = said.wrong.saturating_add(1);
    }
}

// A run of a script whose call at this place fails, and also the next one if that line says so.
fn failed<P: Program>(
    program: &P,
    script: Script<'_>,
    cut: Cut,
    head: &str,
    out: &mut Answer,
) -> Result<Run, Memory> {
    let call = cut.at.saturating_add(1);
    let next = call.saturating_add(1);
    let way = cut.way;
    match format!(in out.alloc(); "fails {call} {way}\n{head} {next} before") {
        Ok(lines) => carry_out(program, script, lines.as_str(), out),
        Err(_) => Err(Memory),
    }
}

// What the runs say of which each of so many calls fails.
fn said_of<P: Program>(
    program: &P,
    script: Script<'_>,
    calls: usize,
    head: &str,
    out: &mut Answer,
) -> Result<Said, Memory> {
    let mut said = Said {
        decided: 0,
        not_decided: 0,
        unknown: 0,
        wrong: 0,
    };
    for k in 0..count_cuts(calls) {
        let run = failed(program, script, cut_at(k), head, out)?;
        count(&mut said, &run, out);
        drop(run);
    }
    Ok(said)
}

fn put_count(head: &[u8], count: u64, out: &mut Answer) {
    out.put_plain(head);
    out.put_shown(&count);
}

fn put_said(said: Said, out: &mut Answer) {
    put_count(b": decided ", said.decided, out);
    put_count(b", not decided ", said.not_decided, out);
    put_count(b", not known ", said.unknown, out);
    put_count(b", wrong ", said.wrong, out);
    out.put_plain(b"\n");
}

// Puts what runs say one call of which fails, and what those say of which the next one fails too.
fn put_faults<P: Program>(
    program: &P,
    script: Script<'_>,
    calls: usize,
    out: &mut Answer,
) -> Result<(), Memory> {
    let one = said_of(program, script, calls, "#", out)?;
    out.put_plain(b"one fault");
    put_said(one, out);
    let two = said_of(program, script, calls, "fails", out)?;
    out.put_plain(b"two faults");
    put_said(two, out);
    Ok(())
}

/// Puts what the commits of a script say of whether they were decided: how often each is said, and how often it doesn't
/// agree with the events.
pub fn put_told<P: Program>(program: &P, script: Script<'_>, out: &mut Answer) {
    match carry_out(program, script, "#", out) {
        Ok(clean) => {
            let calls = count_own(clean.host.trace());
            drop(clean);
            let done = put_faults(program, script, calls, out);
            out.note(done);
        }
        Err(Memory) => out.lack(),
    }
}
