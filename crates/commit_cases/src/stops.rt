// Stops inside the events of a host, and their recoveries.
use crate::commits::put_recovered;
use case_blocks::{Answer, cut, failing, number, part, put_changes, put_disk};
use host_memory::MemHost;
use host_port::DiskView;
use mail_text::{Items, Memory, Text};

// A stop inside an event: its number, and the part of it that is done.
#[derive(Clone, Copy)]
struct Stop {
    at: usize,
    way: &'static str,
}

// How many stops the events of a host have, four each.
fn count_stops(host: &MemHost) -> usize {
    host.trace().len().saturating_mul(4)
}

// The stop of this number, counted from 0.
fn stop_of(k: usize) -> Stop {
    Stop {
        at: (k / 4).saturating_add(1),
        way: match k % 4 {
            0 => "before",
            1 => "nothing",
            2 => "bytes mailx-commit 2\\nph",
            _ => "after",
        },
    }
}

// The host of a stop, once it is recovered.
fn recovered_host(host: &MemHost, stop: Stop, out: &mut Answer) -> Result<MemHost, Memory> {
    let part = part(stop.way, out);
    let image = host.stop_at(stop.at, &part);
    drop(part);
    let image = image?;
    let alloc = out.alloc();
    let plan = failing(alloc, Items::new(alloc));
    let mut again = MemHost::new(alloc, image, Text::new(alloc), plan)?;
    let mut told = Answer::new(alloc);
    put_recovered(&mut again, &mut told);
    Ok(again)
}

// Whether the disk of a stop shows this once it is recovered.
fn shows(start: &DiskView, host: &MemHost, stop: Stop, want: &[u8], out: &mut Answer) -> bool {
    let mut shown = Answer::new(out.alloc());
    match recovered_host(host, stop, out) {
        Ok(again) => {
            put_disk(start, &again, &mut shown);
            drop(again);
        }
        Err(Memory) => out.lack(),
    }
    shown.bytes() == want
}

// Whether a stop inside any event, with any part done, shows this once it is recovered.
fn shows_wherever(start: &DiskView, host: &MemHost, want: &[u8], out: &mut Answer) -> bool {
    let mut same = true;
    for k in 0..count_stops(host) {
        let is_shown = shows(start, host, stop_of(k), want, out);
        same = same && is_shown;
    }
    same
}

fn put_head(at: usize, way: &str, out: &mut Answer) {
    out.put_plain(b"stop ");
    out.put_shown(&at);
    out.put_plain(b" ");
    out.put_plain(way.as_bytes());
    out.put_plain(b"\n");
}

// What a recovered host shows, and whether that recovery may itself stop anywhere.
fn put_shown(start: &DiskView, again: &MemHost, out: &mut Answer) {
    let mut shown = Answer::new(out.alloc());
    put_disk(start, again, &mut shown);
    out.put_plain(shown.bytes());
    if !shows_wherever(start, again, shown.bytes(), out) {
        out.put_plain(b"another stop leaves something else\n");
    }
}

// What a stop shows once it is recovered.
fn shown(start: &DiskView, host: &MemHost, stop: Stop, out: &mut Answer) -> Answer {
    let mut shown = Answer::new(out.alloc());
    match recovered_host(host, stop, out) {
        Ok(again) => {
            put_shown(start, &again, &mut shown);
            drop(again);
        }
        Err(Memory) => out.lack(),
    }
    shown
}

/// What the stops inside each event show once they are recovered. A stop that shows what the one before it does is left
/// out, as the first is that shows nothing.
pub fn put_stops(start: &DiskView, host: &MemHost, out: &mut Answer) {
    let mut last = Answer::new(out.alloc());
    for k in 0..count_stops(host) {
        let stop = stop_of(k);
        let next = shown(start, host, stop, out);
        if next.bytes() != last.bytes() {
            put_head(stop.at, stop.way, out);
            out.put_plain(next.bytes());
        }
        last = next;
    }
}

/// What a stop leaves.
pub fn put_stop(start: &DiskView, host: &MemHost, line: &str, out: &mut Answer) {
    let (at, way) = cut(line);
    let at = number(at) as usize;
    put_head(at, way, out);
    let part = part(way, out);
    let image = host.stop_at(at, &part);
    drop(part);
    match image {
        Ok(image) => {
            put_changes(start, &image, out);
            drop(image);
        }
        Err(Memory) => out.lack(),
    }
}
