// Calls that fail, one in each run.
use crate::carrying::{Program, Run, Scene, carry_out, put_recovery, recover, start_of};
use crate::judging::{are_released, count_own, is_met, is_met_in_recovery, put_end};
use crate::scripts::{Script, is_wanted};
use crate::tally::Tally;
use crate::turning::{first, is_deciding, turns};
use case_blocks::{Answer, Cut, count_cuts, cut_at, part};
use host_memory::MemHost;
use host_port::DiskView;
use mail_text::{Items, Memory};

// A run of a script whose call at this place fails.
fn failed<P: Program>(
    program: &P,
    script: Script<'_>,
    cut: Cut,
    out: &mut Answer,
) -> Result<Run, Memory> {
    let call = cut.at.saturating_add(1);
    let way = cut.way;
    match format!(in out.alloc(); "fails {call} {way}") {
        Ok(line) => carry_out(program, script, line.as_str(), out),
        Err(_) => Err(Memory),
    }
}

// A recovery of a disk whose call at this place fails.
fn failed_recovery<P: Program>(
    program: &P,
    script: Script<'_>,
    disk: DiskView,
    cut: Cut,
    out: &mut Answer,
) -> Result<Run, Memory> {
    let part = part(cut.way, out);
    let mut fails = Items::new(out.alloc());
    out.note(fails.push((cut.at.saturating_add(1) as u64, part)));
    recover(program, script, disk, 2, fails, out)
}

// Puts what a recovery makes of what a run left.
fn put_recovered<P: Program>(
    program: &P,
    scene: &Scene<'_>,
    run: &Run,
    shown: &mut Answer,
) -> Result<(), Memory> {
    let disk = run.host.view()?;
    let host = put_recovery(program, scene, disk, 3, shown)?;
    drop(host);
    Ok(())
}

// Notes whether a run is met, and its disk is as wanted after these turns once that is recovered.
fn note<P: Program>(
    program: &P,
    scene: &Scene<'_>,
    run: &Run,
    is_met: bool,
    turns: &[u8],
    cut: Cut,
    tally: &mut Tally,
    out: &mut Answer,
) {
    let mut shown = Answer::new(out.alloc());
    out.note(put_recovered(program, scene, run, &mut shown));
    let is_good = is_met
        && are_released(run.host.trace())
        && is_wanted(scene.script, turns, shown.bytes());
    put_end(run, &mut shown);
    tally.note(is_good, cut, shown.bytes());
}

// Notes how a run ended whose call at this place failed; another is the same run without that fault.
fn note_run<P: Program>(
    program: &P,
    scene: &Scene<'_>,
    clean: &Run,
    run: &Run,
    cut: Cut,
    tally: &mut Tally,
    out: &mut Answer,
) {
    let turns = turns(out.alloc(), run.host.trace());
    let is_met = is_met(clean, run, cut.at, out);
    note(program, scene, run, is_met, turns.bytes(), cut, tally, out);
}

// Lets the call at this place fail.
fn fail<P: Program>(
    program: &P,
    scene: &Scene<'_>,
    clean: &Run,
    cut: Cut,
    tally: &mut Tally,
    out: &mut Answer,
) -> Result<(), Memory> {
    let run = failed(program, scene.script, cut, out)?;
    note_run(program, scene, clean, &run, cut, tally, out);
    drop(run);
    Ok(())
}

// Lets each call of a run fail.
fn fail_each<P: Program>(
    program: &P,
    scene: &Scene<'_>,
    clean: &Run,
    tally: &mut Tally,
    out: &mut Answer,
) -> Result<(), Memory> {
    for k in 0..count_cuts(count_own(clean.host.trace())) {
        fail(program, scene, clean, cut_at(k), tally, out)?;
    }
    Ok(())
}

// Lets each call of a script fail.
fn fail_calls<P: Program>(
    program: &P,
    scene: &Scene<'_>,
    tally: &mut Tally,
    out: &mut Answer,
) -> Result<(), Memory> {
    let clean = carry_out(program, scene.script, "#", out)?;
    let done = fail_each(program, scene, &clean, tally, out);
    drop(clean);
    done
}

// What a stop leaves that is recovered: the host of the run that stops, and where.
#[derive(Clone, Copy)]
struct Stop<'a> {
    host: &'a MemHost,
    cut: Cut,
}

// The disk that a stop leaves.
fn image(stop: Stop<'_>, out: &mut Answer) -> Result<DiskView, Memory> {
    let part = part(stop.cut.way, out);
    stop.host.stop_at(stop.cut.at.saturating_add(1), &part)
}

// Lets the call at this place fail in the recovery of a stop, before which the run had these turns.
fn fail_recovery<P: Program>(
    program: &P,
    scene: &Scene<'_>,
    stop: Stop<'_>,
    turns: &[u8],
    cut: Cut,
    tally: &mut Tally,
    out: &mut Answer,
) -> Result<(), Memory> {
    let disk = image(stop, out)?;
    let run = failed_recovery(program, scene.script, disk, cut, out)?;
    let is_met = is_met_in_recovery(&run, cut.at, out);
    note(program, scene, &run, is_met, turns, cut, tally, out);
    drop(run);
    Ok(())
}

// How many calls the recovery of a stop has.
fn count_calls<P: Program>(
    program: &P,
    scene: &Scene<'_>,
    stop: Stop<'_>,
    out: &mut Answer,
) -> Result<usize, Memory> {
    let disk = image(stop, out)?;
    let fails = Items::new(out.alloc());
    let run = recover(program, scene.script, disk, 2, fails, out)?;
    let count = count_own(run.host.trace());
    drop(run);
    Ok(count)
}

// Lets each call of the recovery of a stop fail that comes after this many events.
fn fail_recoveries<P: Program>(
    program: &P,
    scene: &Scene<'_>,
    stop: Stop<'_>,
    count: usize,
    tally: &mut Tally,
    out: &mut Answer,
) -> Result<(), Memory> {
    let turns = turns(out.alloc(), first(stop.host.trace(), count));
    for k in 0..count_cuts(count_calls(program, scene, stop, out)?) {
        fail_recovery(program, scene, stop, turns.bytes(), cut_at(k), tally, out)?;
    }
    Ok(())
}

// Lets recoveries fail just before the decision at this place, and just after it.
fn fail_around<P: Program>(
    program: &P,
    scene: &Scene<'_>,
    host: &MemHost,
    at: usize,
    tally: &mut Tally,
    out: &mut Answer,
) -> Result<(), Memory> {
    let before = Stop {
        host,
        cut: Cut { at, way: "before" },
    };
    fail_recoveries(program, scene, before, at, tally, out)?;
    let after = Stop {
        host,
        cut: Cut { at, way: "after" },
    };
    fail_recoveries(program, scene, after, at.saturating_add(1), tally, out)
}

// Lets recoveries fail around each decision of a run.
fn fail_around_each<P: Program>(
    program: &P,
    scene: &Scene<'_>,
    host: &MemHost,
    tally: &mut Tally,
    out: &mut Answer,
) -> Result<(), Memory> {
    let events = host.trace();
    for (at, event) in events.iter().enumerate() {
        if is_deciding(out.alloc(), first(events, at), event) {
            fail_around(program, scene, host, at, tally, out)?;
        }
    }
    Ok(())
}

// Lets recoveries fail around each decision of a script.
fn fail_around_all<P: Program>(
    program: &P,
    scene: &Scene<'_>,
    tally: &mut Tally,
    out: &mut Answer,
) -> Result<(), Memory> {
    let clean = carry_out(program, scene.script, "#", out)?;
    let done = fail_around_each(program, scene, &clean.host, tally, out);
    drop(clean);
    done
}

/// Puts what the faults of a script come to.
pub fn put_faults<P: Program>(program: &P, script: Script<'_>, out: &mut Answer) {
    let scene = start_of(script, out);
    let mut tally = Tally::new(out.alloc());
    let done = fail_calls(program, &scene, &mut tally, out);
    drop(scene);
    out.note(done);
    tally.put("faults", out);
}

/// Puts what the faults of recoveries come to.
pub fn put_faulty_recoveries<P: Program>(program: &P, script: Script<'_>, out: &mut Answer) {
    let scene = start_of(script, out);
    let mut tally = Tally::new(out.alloc());
    let done = fail_around_all(program, &scene, &mut tally, out);
    drop(scene);
    out.note(done);
    tally.put("faulty recoveries", out);
}
