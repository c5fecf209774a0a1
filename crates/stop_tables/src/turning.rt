// The turns of a run: what decides how its disk is left.
use case_blocks::Answer;
use commit_record::{Phase, read};
use host_port::{Event, ForeignStep, Seen};
use mail_text::Text;
use std::alloc::Global;

/// The name of the record.
pub const RECORD: &[u8] = b"/h/.mailx.commit";

const NEW: &[u8] = b"/h/.mailx.commit.new";

/// The name of the user's own start-up file.
pub const OWN_START: &[u8] = b"/h/.mailrc";

/// The turn of a run that can't read it.
pub const UNREAD: &[u8] = b"unread";

// The bytes that an event stages where the record is made.
fn staged_record(event: &Event) -> Option<&Text> {
    match event {
        Event::Stage {
            name,
            bytes: Some(bytes),
            ..
        } if name.bytes() == NEW => Some(bytes),
        _ => None,
    }
}

// Whether bytes are the record of a decision of the run's token, which is 1.
fn is_decision(alloc: Global, bytes: &[u8]) -> bool {
    match read(alloc, bytes) {
        Ok(record) => record.phase == Phase::Go && record.token == 1,
        Err(_) => false,
    }
}

// Whether what these events staged last for a record is that of a decision.
fn has_staged_decision(alloc: Global, events: &[Event]) -> bool {
    let mut is = false;
    for event in events {
        if let Some(bytes) = staged_record(event) {
            is = is_decision(alloc, bytes.bytes());
        }
    }
    is
}

/// Whether an event behind these is the publication that decides a commit, done or not.
pub fn is_deciding(alloc: Global, before: &[Event], event: &Event) -> bool {
    match event {
        Event::Publish { from, to, .. } => {
            from.bytes() == NEW && to.bytes() == RECORD && has_staged_decision(alloc, before)
        }
        _ => false,
    }
}

fn is_loaded(events: &[Event], file: &[u8]) -> bool {
    for event in events {
        if let Event::Load { name, .. } = event {
            if name.bytes() == file {
                return true;
            }
        }
    }
    false
}

// Whether a run has a right after these events.
fn has_right(events: &[Event]) -> bool {
    let mut has = false;
    for event in events {
        match event {
            Event::Seize { got, .. } => has = *got,
            Event::Release { .. } => has = false,
            _ => {}
        }
    }
    has
}

// The turn that a load behind these events is.
fn load_turn(before: &[Event], name: &[u8], seen: &Seen) -> &'static [u8] {
    match seen {
        Seen::Bytes { held: true, .. } => if has_right(before) { b"" } else { b"held" },
        Seen::Failed => if name == OWN_START { UNREAD } else { b"" },
        _ => b"",
    }
}

// The turn that a step of another behind these events is.
fn step_turn(before: &[Event], step: &ForeignStep) -> &'static [u8] {
    match step {
        ForeignStep::Write { name, .. } | ForeignStep::Remove { name } => {
            if is_loaded(before, name.bytes()) {
                b"other"
            } else {
                b"early"
            }
        }
        _ => b"",
    }
}

// The turn that an event behind these is; empty if it is none.
fn turn(alloc: Global, before: &[Event], event: &Event) -> &'static [u8] {
    match event {
        Event::Publish { done: true, .. } => {
            if is_deciding(alloc, before, event) {
                b"commit"
            } else {
                b""
            }
        }
        Event::Load { name, seen } => load_turn(before, name.bytes(), seen),
        Event::Lock {
            got: false,
            failed: false,
            ..
        } => b"busy",
        Event::Seize {
            got: false,
            failed: false,
            ..
        } => b"busy",
        Event::Foreign { step } => step_turn(before, step),
        _ => b"",
    }
}

/// The first `count` events.
pub fn first(events: &[Event], count: usize) -> &[Event] {
    let (before, _) = events.split_at(count.min(events.len()));
    before
}

/// The turns of events, with a blank between one and the next.
pub fn turns(alloc: Global, events: &[Event]) -> Answer {
    let mut turns = Answer::new(alloc);
    for (k, event) in events.iter().enumerate() {
        let word = turn(alloc, first(events, k), event);
        if !word.is_empty() && !turns.bytes().is_empty() {
            turns.put_plain(b" ");
        }
        turns.put_plain(word);
    }
    turns
}
