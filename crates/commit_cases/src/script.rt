// One case, line by line.
use crate::calls::put_call;
use crate::pure::put_answer;
use crate::sending::put_children;
use crate::settled::put_settled;
use crate::stops::{put_stop, put_stops};
use case_blocks::{Answer, Case, Tells, cut, host, is_case, is_plain, put_disk, view};
use host_memory::MemHost;
use host_port::{DiskView, Event};
use mail_text::Memory;

fn letter(event: &Event) -> u8 {
    match event {
        Event::In { failed, .. } => if *failed { b'I' } else { b'i' },
        Event::Out { failed, .. } => if *failed { b'O' } else { b'o' },
        Event::Load { seen, .. } => if matches!(seen, host_port::Seen::Failed) {
            b'L'
        } else {
            b'l'
        },
        Event::Stage { .. } => b's',
        Event::Publish { .. } => b'p',
        Event::Extend { .. } => b'x',
        Event::Erase { .. } => b'e',
        Event::Lock { .. } => b'k',
        Event::Unlock { .. } => b'u',
        Event::Seize { .. } => b'z',
        Event::Release { .. } => b'r',
        Event::Child { failed, .. } => if *failed { b'C' } else { b'c' },
        Event::Edit { failed, .. } => if *failed { b'D' } else { b'd' },
        Event::Now { .. } => b'n',
        Event::Foreign { .. } => b'f',
    }
}

fn put_letters(host: &MemHost, out: &mut Answer) {
    for event in host.trace() {
        out.put_plain(&[letter(event)]);
    }
}

fn put_line(case: Case<'_>, host: &mut MemHost, start: &DiskView, line: &str, out: &mut Answer) {
    let (kind, rest) = cut(line);
    match kind {
        "stop" => return put_stop(start, host, rest, out),
        "stops" => return put_stops(start, host, out),
        _ => {}
    }
    out.put_plain(if kind == "do" { rest } else { line }.as_bytes());
    out.put_plain(b": ");
    match kind {
        "do" => put_call(host, rest, out),
        "letters" => put_letters(host, out),
        "children" => put_children(host, out),
        "settled" | "sound" | "stands" => put_settled(start, kind, rest, out),
        _ => put_answer(case, line, out),
    }
    out.put_plain(b"\n");
}

fn put_script(case: Case<'_>, host: &mut MemHost, start: &DiskView, out: &mut Answer) {
    for line in case.own.lines() {
        if !is_plain(line) && line != "record" {
            put_line(case, host, start, line, out);
        }
    }
    if !host.trace().is_empty() {
        out.put_plain(b"events ");
        out.put_shown(&host.trace().len());
        out.put_plain(b"\n");
        put_disk(start, host, out);
    }
}

/// Cases as scripts: the answers of their lines.
pub struct Script;

impl Tells for Script {
    fn tell(&self, case: Case<'_>, out: &mut Answer) {
        if is_case(case) {
            let start = view(case, out);
            match host(case, out) {
                Ok(mut host) => {
                    put_script(case, &mut host, &start, out);
                    drop(host);
                }
                Err(Memory) => out.lack(),
            }
            drop(start);
        }
    }
}
