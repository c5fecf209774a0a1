// What tells one state from another, beside what stands.
use crate::scripts::put_places;
use actor_core::{Core, Doing, Past};
use case_blocks::Answer;
use host_port::Event;
use mail_text::Text;

// Whether a call was done, and whether it failed.
fn put_done(done: bool, failed: bool, out: &mut Answer) {
    out.put_flag(done);
    out.put_flag(failed);
}

// What a call gave. Which call it was follows from what came before it.
fn put_event(event: &Event, out: &mut Answer) {
    match event {
        Event::Load { seen, .. } => out.put_debug(seen),
        Event::Stage { bytes, failed, .. } => {
            out.put_debug(bytes);
            out.put_flag(*failed);
        }
        Event::Extend { tail, failed, .. } => {
            out.put_debug(tail);
            out.put_flag(*failed);
        }
        Event::Publish { done, failed, .. } => put_done(*done, *failed, out),
        Event::Erase { done, failed, .. } => put_done(*done, *failed, out),
        Event::Unlock { done, failed, .. } => put_done(*done, *failed, out),
        Event::Lock { got, failed, .. } => put_done(*got, *failed, out),
        Event::Seize { got, failed, .. } => put_done(*got, *failed, out),
        _ => {}
    }
    out.put_plain(b".");
}

fn put_past(past: &Past, out: &mut Answer) {
    match past {
        Past::Shown(event) => put_event(event, out),
        Past::Wanted => out.put_plain(b"w"),
    }
}

// What an actor is doing. What its commit or recovery is for follows from its number.
fn put_doing(doing: &Doing, out: &mut Answer) {
    match doing {
        Doing::Nothing => out.put_plain(b"-"),
        Doing::Stopped => out.put_plain(b"x"),
        Doing::Bracket { past, .. } => {
            for one in past.items() {
                put_past(one, out);
            }
        }
    }
    out.put_plain(b"\n");
}

/// What each actor is doing, and the commit places, as bytes.
pub fn key_of(core: &Core, out: &mut Answer) -> Text {
    let mut key = Answer::new(out.alloc());
    for member in core.members() {
        put_doing(&member.doing, &mut key);
    }
    put_places(core, &mut key);
    if !key.is_whole() {
        out.lack();
    }
    out.copied(key.bytes())
}
