// Steps of another, put before each call of a run in turn.
use crate::carrying::{Program, Run, Scene, carry_out, start_of};
use crate::judging::{are_released, count_own, put_end};
use crate::scripts::{Script, is_wanted};
use crate::tally::Tally;
use crate::turning::turns;
use case_blocks::{Answer, Cut, put_disk, value};
use lawful_steps::are_lawful;
use mail_text::Memory;
use std::alloc::Global;

// Whose record and right the runs have, and their token.
const ACTOR: &[u8] = b"/h/.mailx";

const TOKEN: u64 = 1;

// What the entries come to, and how many steps weren't lawful.
#[derive(Drop)]
struct Counts {
    tally: Tally,
    unlawful: u64,
}

fn no_counts(alloc: Global) -> Counts {
    Counts {
        tally: Tally::new(alloc),
        unlawful: 0,
    }
}

// A run of a script before whose call of this number another does its step, and takes it back before the next one.
fn stepped<P: Program>(
    program: &P,
    script: Script<'_>,
    call: usize,
    out: &mut Answer,
) -> Result<Run, Memory> {
    let step = value(script.case, "step ").unwrap_or("");
    let back = value(script.case, "back ").unwrap_or("");
    let next = call.saturating_add(1);
    let head = if back.is_empty() { "#" } else { "other" };
    match format!(in out.alloc(); "other {call} {step}\n{head} {next} {back}") {
        Ok(lines) => carry_out(program, script, lines.as_str(), out),
        Err(_) => Err(Memory),
    }
}

// What a run printed, its status and what became of the disk.
fn left(scene: &Scene<'_>, run: &Run, out: &Answer) -> Answer {
    let mut left = Answer::new(out.alloc());
    put_end(run, &mut left);
    put_disk(&scene.start, &run.host, &mut left);
    left
}

// Whether what a run left is wanted, and its right was given up.
fn is_met(scene: &Scene<'_>, run: &Run, left: &[u8], out: &Answer) -> bool {
    let turns = turns(out.alloc(), run.host.trace());
    are_released(run.host.trace()) && is_wanted(scene.script, turns.bytes(), left)
}

// Notes a run in which another did its step before the call at this place. One that wasn't lawful there is only counted.
fn note(
    scene: &Scene<'_>,
    run: &Run,
    at: usize,
    counts: &mut Counts,
    out: &Answer,
) -> Result<(), Memory> {
    if !are_lawful(out.alloc(), ACTOR, TOKEN, &run.host)? {
        counts.unlawful = counts.unlawful.saturating_add(1);
        return Ok(());
    }
    let left = left(scene, run, out);
    let is_good = is_met(scene, run, left.bytes(), out);
    counts
        .tally
        .note(is_good, Cut { at, way: "step" }, left.bytes());
    Ok(())
}

// Lets another do its step before the call at this place.
fn step<P: Program>(
    program: &P,
    scene: &Scene<'_>,
    at: usize,
    counts: &mut Counts,
    out: &mut Answer,
) -> Result<(), Memory> {
    let run = stepped(program, scene.script, at.saturating_add(1), out)?;
    let done = note(scene, &run, at, counts, out);
    drop(run);
    done
}

// Before how many calls of a run another does its step: what it takes back has to come before a call too.
fn count_places<P: Program>(
    program: &P,
    script: Script<'_>,
    out: &mut Answer,
) -> Result<usize, Memory> {
    let run = carry_out(program, script, "#", out)?;
    let count = count_own(run.host.trace());
    drop(run);
    match value(script.case, "back ") {
        Some(_) => Ok(count.saturating_sub(1)),
        None => Ok(count),
    }
}

// Lets another do its step before each call of a script.
fn step_each<P: Program>(
    program: &P,
    scene: &Scene<'_>,
    counts: &mut Counts,
    out: &mut Answer,
) -> Result<(), Memory> {
    for at in 0..count_places(program, scene.script, out)? {
        step(program, scene, at, counts, out)?;
    }
    Ok(())
}

/// Puts what the runs of a script come to beside which another does its step: how many, and how many of them weren't
/// lawful.
pub fn put_others<P: Program>(program: &P, script: Script<'_>, out: &mut Answer) {
    let scene = start_of(script, out);
    let mut counts = no_counts(out.alloc());
    let done = step_each(program, &scene, &mut counts, out);
    drop(scene);
    out.note(done);
    counts.tally.put("steps of another", out);
    out.put_plain(b"not lawful ");
    out.put_shown(&counts.unlawful);
    out.put_plain(b"\n");
}
