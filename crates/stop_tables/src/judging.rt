// What a run does once a call has failed.
use crate::carrying::Run;
use crate::turning::{OWN_START, RECORD, first, is_deciding};
use case_blocks::Answer;
use host_port::Event;
use mail_text::lines;

const SHARED_START: &[u8] = b"/etc/mail.rc";

fn is_own(event: &Event) -> bool {
    !matches!(event, Event::Foreign { .. })
}

// Where the own event stands behind this many own ones, the end if there are fewer, and how many own ones come before.
fn own_before(events: &[Event], count: usize) -> (usize, usize) {
    let mut own = 0usize;
    for (k, event) in events.iter().enumerate() {
        if is_own(event) {
            if own == count {
                return (k, own);
            }
            own = own.saturating_add(1);
        }
    }
    (events.len(), own)
}

/// How many events are the run's own.
pub fn count_own(events: &[Event]) -> usize {
    let (_, own) = own_before(events, usize::MAX);
    own
}

// The place of the own event behind this many own ones; the end if there are fewer.
fn place(events: &[Event], count: usize) -> usize {
    let (place, _) = own_before(events, count);
    place
}

// The events behind the first `count`.
fn behind(events: &[Event], count: usize) -> &[Event] {
    let (_, rest) = events.split_at(count.min(events.len()));
    rest
}

/// Puts what events say.
pub fn put_said(events: &[Event], said: &mut Answer) {
    for event in events {
        if let Event::Out { bytes, .. } = event {
            said.put_plain(bytes.bytes());
        }
    }
}

// What events say.
fn said(events: &[Event], out: &Answer) -> Answer {
    let mut said = Answer::new(out.alloc());
    put_said(events, &mut said);
    said
}

/// Whether each right that a run took, or may have taken, is given up once: before it takes the next one, or ends.
pub fn are_released(events: &[Event]) -> bool {
    let mut is_held = false;
    for event in events {
        match event {
            Event::Seize { got, failed, .. } => {
                if is_held {
                    return false;
                }
                is_held = *got || *failed;
            }
            Event::Release { .. } => {
                if !is_held {
                    return false;
                }
                is_held = false;
            }
            _ => {}
        }
    }
    !is_held
}

// Whether nothing but output comes, and that the right is given up.
fn are_of_the_end(events: &[Event]) -> bool {
    for event in events {
        if !matches!(
            event,
            Event::Out { .. } | Event::Release { .. } | Event::Foreign { .. }
        ) {
            return false;
        }
    }
    true
}

// Whether a run ends with these events once a call failed. Behind the publication that decides, it looks at the record
// once.
fn only_ends(events: &[Event], looks: bool) -> bool {
    if !looks {
        return are_of_the_end(events);
    }
    match events.split_first() {
        Some((Event::Load { name, .. }, rest)) => name.bytes() == RECORD && are_of_the_end(rest),
        _ => false,
    }
}

// Whether the event at a place is the publication that decides a commit.
fn is_deciding_at(events: &[Event], at: usize, out: &Answer) -> bool {
    match events.get(at) {
        Some(event) => is_deciding(out.alloc(), first(events, at), event),
        None => false,
    }
}

// Whether a run ends with this status and line once the event at this place has failed.
fn ends_so(run: &Run, at: usize, status: u8, line: &[u8], out: &Answer) -> bool {
    let events = run.host.trace();
    let rest = behind(events, at.saturating_add(1));
    run.ending.status == status
        && only_ends(rest, is_deciding_at(events, at, out))
        && said(rest, out).bytes() == line
}

// Whether a run goes on as another, but that it says first that this file cannot be read.
fn misses(clean: &Run, run: &Run, name: &[u8], out: &Answer) -> bool {
    let mut wanted = Answer::new(out.alloc());
    wanted.put_plain(name);
    wanted.put_plain(b": cannot be read\n");
    put_said(clean.host.trace(), &mut wanted);
    run.ending == clean.ending && said(run.host.trace(), out).bytes() == wanted.bytes()
}

// Whether a run says and answers what another does.
fn is_like(clean: &Run, run: &Run, out: &Answer) -> bool {
    let wanted = said(clean.host.trace(), out);
    run.ending == clean.ending && said(run.host.trace(), out).bytes() == wanted.bytes()
}

// Whether a run says this line of a child at a place, and else what another says behind its own line on it.
fn is_not_run(clean: &Run, run: &Run, at: usize, line: &[u8], out: &Answer) -> bool {
    let mut wanted = Answer::new(out.alloc());
    wanted.put_plain(line);
    let clean_said = said(behind(clean.host.trace(), at), out);
    for line in lines(clean_said.bytes()).skip(1) {
        wanted.put_plain(line);
        wanted.put_plain(b"\n");
    }
    said(behind(run.host.trace(), at), out).bytes() == wanted.bytes()
}

// Whether a run says that the sender could not be run, and else what another says behind its line on the sender.
fn is_not_sent(clean: &Run, run: &Run, at: usize, out: &Answer) -> bool {
    run.ending.status == 6
        && run.ending.sender.is_none()
        && is_not_run(clean, run, at, b"sender could not be run\n", out)
}

// Whether a run says that the editor could not be run, and else what another says behind its line on the edited message.
fn is_not_edited(clean: &Run, run: &Run, at: usize, out: &Answer) -> bool {
    run.ending.status == clean.ending.status
        && is_not_run(clean, run, at, b"editor could not be run\n", out)
}

fn is_startup(name: &[u8]) -> bool {
    name == SHARED_START || name == OWN_START
}

// Whether a run does what it should whose load of a file failed.
fn is_load_met(clean: &Run, run: &Run, at: usize, name: &[u8], out: &Answer) -> bool {
    if is_startup(name) {
        return misses(clean, run, name, out);
    }
    ends_so(run, at, 5, b"mailx: disk fault\n", out)
}

/// Whether a run does what it should whose call behind this many failed; another is the same run without that fault.
pub fn is_met(clean: &Run, run: &Run, count: usize, out: &Answer) -> bool {
    let at = place(run.host.trace(), count);
    match run.host.trace().get(at) {
        None => false,
        Some(Event::In { .. }) => ends_so(run, at, 3, b"mailx: input fault\n", out),
        Some(Event::Out { .. }) => ends_so(run, at, 4, b"mailx: output fault\n", out),
        Some(Event::Load { name, .. }) => is_load_met(clean, run, at, name.bytes(), out),
        Some(Event::Child { .. }) => is_not_sent(clean, run, at, out),
        Some(Event::Edit { .. }) => is_not_edited(clean, run, at, out),
        Some(Event::Release { .. } | Event::Now { .. }) => is_like(clean, run, out),
        Some(_) => ends_so(run, at, 5, b"mailx: disk fault\n", out),
    }
}

/// Whether a recovery does what it should whose call behind this many failed. It prints nothing.
pub fn is_met_in_recovery(run: &Run, count: usize, out: &Answer) -> bool {
    let at = place(run.host.trace(), count);
    match run.host.trace().get(at) {
        None => false,
        Some(Event::Release { .. }) => run.ending.status <= 1,
        Some(_) => ends_so(run, at, 5, b"", out),
    }
}

/// Puts how a run ended.
pub fn put_end(run: &Run, shown: &mut Answer) {
    let said = said(run.host.trace(), shown);
    shown.put_lines(said.bytes());
    shown.put_plain(b"status ");
    shown.put_shown(&run.ending.status);
    shown.put_plain(b"\n");
}
