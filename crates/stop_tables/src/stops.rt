// Stops inside each event of a run, and inside each event of their recoveries.
use crate::carrying::{Program, Scene, carry_out, put_recovery, start_of};
use crate::scripts::{Script, is_wanted};
use crate::tally::Tally;
use crate::turning::{first, turns};
use case_blocks::{Answer, Cut, count_cuts, cut_at, part, put_changes};
use host_memory::MemHost;
use host_port::DiskView;
use mail_text::Memory;

// What the stops of a run and those of their recoveries come to.
#[derive(Drop)]
struct Tallies {
    stops: Tally,
    again: Tally,
}

// The turns of a run until it stops.
fn turns_until(host: &MemHost, cut: Cut, out: &Answer) -> Answer {
    let count = if cut.way == "after" {
        cut.at.saturating_add(1)
    } else {
        cut.at
    };
    turns(out.alloc(), first(host.trace(), count))
}

// The disk that a run leaves if it stops there.
fn image(host: &MemHost, cut: Cut, out: &mut Answer) -> Result<DiskView, Memory> {
    let part = part(cut.way, out);
    host.stop_at(cut.at.saturating_add(1), &part)
}

// What that disk shows against the one at the start.
fn shown_image(
    scene: &Scene<'_>,
    host: &MemHost,
    cut: Cut,
    out: &mut Answer,
) -> Result<Answer, Memory> {
    let disk = image(host, cut, out)?;
    let mut shown = Answer::new(out.alloc());
    put_changes(&scene.start, &disk, &mut shown);
    drop(disk);
    Ok(shown)
}

// What no disk shows.
fn unseen(out: &Answer) -> Answer {
    let mut unseen = Answer::new(out.alloc());
    unseen.put_plain(b"none");
    unseen
}

// Puts what a recovery with this token makes of the disk that a run leaves if it stops there.
fn put_stop<P: Program>(
    program: &P,
    scene: &Scene<'_>,
    host: &MemHost,
    cut: Cut,
    token: u64,
    shown: &mut Answer,
) -> Result<MemHost, Memory> {
    let disk = image(host, cut, shown)?;
    put_recovery(program, scene, disk, token, shown)
}

// Notes what a second recovery makes of what a recovery leaves that stops there.
fn recover_again<P: Program>(
    program: &P,
    scene: &Scene<'_>,
    turns: &[u8],
    host: &MemHost,
    cut: Cut,
    tally: &mut Tally,
    out: &mut Answer,
) {
    let mut shown = Answer::new(out.alloc());
    match put_stop(program, scene, host, cut, 3, &mut shown) {
        Ok(recovery) => drop(recovery),
        Err(Memory) => out.lack(),
    }
    let is_good = is_wanted(scene.script, turns, shown.bytes());
    tally.note(is_good, cut, shown.bytes());
}

// Stops a recovery inside each of its events. A stop that leaves what the one before it does is passed over.
fn stop_recovery<P: Program>(
    program: &P,
    scene: &Scene<'_>,
    turns: &[u8],
    host: &MemHost,
    tally: &mut Tally,
    out: &mut Answer,
) -> Result<(), Memory> {
    let mut last = unseen(out);
    for k in 0..count_cuts(host.trace().len()) {
        let next = shown_image(scene, host, cut_at(k), out)?;
        if next.bytes() != last.bytes() {
            recover_again(program, scene, turns, host, cut_at(k), tally, out);
        }
        last = next;
    }
    Ok(())
}

// Notes what a recovery makes of what a run leaves that stops there, and gives the host that carried it out.
fn recover<P: Program>(
    program: &P,
    scene: &Scene<'_>,
    turns: &[u8],
    host: &MemHost,
    cut: Cut,
    tally: &mut Tally,
    out: &mut Answer,
) -> Result<MemHost, Memory> {
    let mut shown = Answer::new(out.alloc());
    let recovery = put_stop(program, scene, host, cut, 2, &mut shown)?;
    let is_good = is_wanted(scene.script, turns, shown.bytes());
    tally.note(is_good, cut, shown.bytes());
    Ok(recovery)
}

// Stops a run there, and if that leaves something new also its recovery.
fn stop_at<P: Program>(
    program: &P,
    scene: &Scene<'_>,
    host: &MemHost,
    cut: Cut,
    is_new: bool,
    tallies: &mut Tallies,
    out: &mut Answer,
) -> Result<(), Memory> {
    let turns = turns_until(host, cut, out);
    let recovery = recover(
        program,
        scene,
        turns.bytes(),
        host,
        cut,
        &mut tallies.stops,
        out,
    )?;
    let done = if is_new {
        stop_recovery(
            program,
            scene,
            turns.bytes(),
            &recovery,
            &mut tallies.again,
            out,
        )
    } else {
        Ok(())
    };
    drop(recovery);
    done
}

// Stops a run inside each of its events.
fn stop<P: Program>(
    program: &P,
    scene: &Scene<'_>,
    host: &MemHost,
    tallies: &mut Tallies,
    out: &mut Answer,
) -> Result<(), Memory> {
    let mut last = unseen(out);
    for k in 0..count_cuts(host.trace().len()) {
        let next = shown_image(scene, host, cut_at(k), out)?;
        let is_new = next.bytes() != last.bytes();
        last = next;
        stop_at(program, scene, host, cut_at(k), is_new, tallies, out)?;
    }
    Ok(())
}

fn put_tallies(tallies: &Tallies, out: &mut Answer) {
    tallies.stops.put("stops", out);
    tallies.again.put("stopped recoveries", out);
}

// Puts what the stops of a run come to.
fn put_stops_of<P: Program>(
    program: &P,
    scene: &Scene<'_>,
    host: &MemHost,
    out: &mut Answer,
) -> Result<(), Memory> {
    let mut tallies = Tallies {
        stops: Tally::new(out.alloc()),
        again: Tally::new(out.alloc()),
    };
    let done = stop(program, scene, host, &mut tallies, out);
    put_tallies(&tallies, out);
    done
}

fn put_scene<P: Program>(program: &P, scene: &Scene<'_>, out: &mut Answer) -> Result<(), Memory> {
    let run = carry_out(program, scene.script, "#", out)?;
    let done = put_stops_of(program, scene, &run.host, out);
    drop(run);
    done
}

/// Puts what the stops inside each event of a script come to, and those inside each event of their recoveries.
pub fn put_stops<P: Program>(program: &P, script: Script<'_>, out: &mut Answer) {
    let scene = start_of(script, out);
    let done = put_scene(program, &scene, out);
    drop(scene);
    out.note(done);
}
