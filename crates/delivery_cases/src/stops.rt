// Stops inside each event of a delivery, and what recovery makes of each.
use case_blocks::{Answer, Cut, count_cuts, cut_at, failing, part, put_disk};
use folder_recovery::recover;
use host_memory::MemHost;
use host_port::DiskView;
use mail_text::{Items, Memory, Text};

/// The actor of every delivery.
const ACTOR: &[u8] = b"/var/mail/.mail_deliver";

// What recovery makes of the disk that is left where the delivery stops.
fn recovered(
    before: &DiskView,
    host: &MemHost,
    cut: Cut,
    shown: &mut Answer,
) -> Result<(), Memory> {
    let alloc = shown.alloc();
    let part = part(cut.way, shown);
    let disk = host.stop_at(cut.at.saturating_add(1), &part);
    drop(part);
    let disk = disk?;
    let plan = failing(alloc, Items::new(alloc));
    let mut left = MemHost::new(alloc, disk, Text::new(alloc), plan)?;
    if recover(alloc, ACTOR, &mut left).is_err() {
        shown.put_plain(b"not recovered\n");
    }
    put_disk(before, &left, shown);
    drop(left);
    Ok(())
}

// How many stops leave no delivery, and how many a whole one.
#[derive(Clone, Copy)]
struct Count {
    none: u64,
    all: u64,
}

fn note(shown: &Answer, whole: &Answer, cut: Cut, count: &mut Count, out: &mut Answer) {
    if shown.bytes().is_empty() {
        count.none = count.none.saturating_add(1);
    } else if shown.bytes() == whole.bytes() {
        count.all = count.all.saturating_add(1);
    } else {
        out.put_plain(b"torn ");
        out.put_shown(&cut.at);
        out.put_plain(b" ");
        out.put_plain(cut.way.as_bytes());
        out.put_plain(b"\n");
        out.put_plain(shown.bytes());
    }
}

// Notes what a stop leaves.
fn put_stop(
    before: &DiskView,
    host: &MemHost,
    cut: Cut,
    whole: &Answer,
    count: &mut Count,
    out: &mut Answer,
) {
    let mut shown = Answer::new(out.alloc());
    match recovered(before, host, cut, &mut shown) {
        Ok(()) => note(&shown, whole, cut, count, out),
        Err(Memory) => out.lack(),
    }
}

/// Puts what the stops of a delivery leave.
pub fn put_stops(before: &DiskView, host: &MemHost, out: &mut Answer) {
    let mut whole = Answer::new(out.alloc());
    put_disk(before, host, &mut whole);
    let mut count = Count { none: 0, all: 0 };
    for k in 0..count_cuts(host.trace().len()) {
        put_stop(before, host, cut_at(k), &whole, &mut count, out);
    }
    out.put_plain(b"stops ");
    out.put_shown(&count_cuts(host.trace().len()));
    out.put_plain(b": none ");
    out.put_shown(&count.none);
    out.put_plain(b", all ");
    out.put_shown(&count.all);
    out.put_plain(b"\n");
}
