// One case: its delivery, and what is printed of it.
use crate::stops::put_stops;
use case_blocks::{
    Answer, Case, Tells, host, is_case, number, pairs_of, put_disk, put_unknown, value, view,
    words_of,
};
use host_memory::MemHost;
use mail_delivery::{Environment, deliver};
use mail_text::Memory;

/// The heads of lines that say something of a delivery.
const HEADS: [&str; 4] = ["words ", "env ", "token ", "stops"];

fn environment(case: Case<'_>, out: &mut Answer) -> Environment {
    Environment {
        pairs: pairs_of(case, out),
        token: number(value(case, "token ").unwrap_or("1")),
    }
}

fn put_run(case: Case<'_>, host: &mut MemHost, out: &mut Answer) {
    let words = words_of(value(case, "words ").unwrap_or(""), out);
    let env = environment(case, out);
    let status = deliver(out.alloc(), words.items(), &env, host);
    drop(env);
    out.put_plain(b"status ");
    out.put_shown(&status.number());
    out.put_plain(b"\n");
    let before = view(case, out);
    put_disk(&before, host, out);
    if value(case, "stops").is_some() {
        put_stops(&before, host, out);
    }
    drop(before);
}

/// The deliveries of cases, and each line that says nothing known.
pub struct Deliveries;

impl Tells for Deliveries {
    fn tell(&self, case: Case<'_>, out: &mut Answer) {
        put_unknown(case.own, &HEADS, out);
        if is_case(case) {
            match host(case, out) {
                Ok(mut host) => {
                    put_run(case, &mut host, out);
                    drop(host);
                }
                Err(Memory) => out.lack(),
            }
        }
    }
}
