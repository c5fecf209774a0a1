// The calls of a host.
ghost use Rattle.host_port.specs.Names.{IsFileName};

use crate::commits;
use crate::names::is_name;
use crate::sending::put_sent;
use case_blocks::{Answer, cut, number, words_of};
use host_memory::MemHost;
use host_port::{ChildAnswer, ChildError, Host, LoadAnswer, LoadError};

fn done<E: Drop>(answer: Result<(), E>) -> &'static [u8] {
    match answer {
        Ok(()) => b"done",
        Err(_) => b"fault",
    }
}

fn answer<E: Drop>(answer: Result<bool, E>) -> &'static [u8] {
    match answer {
        Ok(true) => b"yes",
        Ok(false) => b"no",
        Err(_) => b"fault",
    }
}

fn publish(host: &mut MemHost, from: &[u8], to: &[u8]) -> &'static [u8]
    requires { IsFileName from.now }
{
    if is_name(to) {
        answer(host.publish(from, to))
    } else {
        b"no name"
    }
}

// A call with a name, and a token or bytes.
fn named(host: &mut MemHost, kind: &str, name: &[u8], token: u64, bytes: &[u8]) -> &'static [u8]
    requires { IsFileName name.now }
{
    match kind {
        "stage" => done(host.stage(name, bytes)),
        "publish" => publish(host, name, bytes),
        "erase" => done(host.erase(name)),
        "lock" => answer(host.lock(name, token)),
        "unlock" => done(host.unlock(name, token)),
        "seize" => answer(host.seize(name)),
        "release" => {
            host.release(name);
            b"done"
        }
        _ => b"unknown",
    }
}

// A call that gives a file another tail: its name, how many bytes stay, and the tail.
fn put_extended(host: &mut MemHost, line: &str, out: &mut Answer) {
    let (name, rest) = cut(line);
    let (at, tail) = cut(rest);
    let name = out.decoded(name);
    let tail = out.decoded(tail);
    if !is_name(name.bytes()) {
        return out.put_plain(b"no name");
    }
    out.put_plain(done(host.extend(name.bytes(), number(at), tail.bytes())));
}

fn put_named(host: &mut MemHost, kind: &str, rest: &str, out: &mut Answer) {
    let (first, last) = cut(rest);
    let name = out.decoded(first);
    let bytes = out.decoded(last);
    if !is_name(name.bytes()) {
        return out.put_plain(b"no name");
    }
    if kind == "load" {
        return put_load(host, name.bytes(), out);
    }
    out.put_plain(named(host, kind, name.bytes(), number(last), bytes.bytes()));
}

fn put_seen(seen: &LoadAnswer, out: &mut Answer) {
    match &seen.bytes {
        Some(bytes) => {
            out.put_plain(b"bytes ");
            out.put(bytes.bytes());
        }
        None => out.put_plain(b"no file"),
    }
    if seen.held {
        out.put_plain(b", held");
    }
}

fn put_load(host: &mut MemHost, name: &[u8], out: &mut Answer)
    requires { IsFileName name.now }
{
    match host.load(out.alloc(), name) {
        Ok(seen) => put_seen(&seen, out),
        Err(LoadError::Failed) => out.put_plain(b"failed"),
        Err(LoadError::TooLarge { .. }) => out.put_plain(b"too large"),
        Err(LoadError::Memory) => out.put_plain(b"out of memory"),
    }
}

fn put_fill(host: &mut MemHost, out: &mut Answer) {
    let mut buf = [0u8; 8];
    match host.fill(&mut buf) {
        Ok(n) => out.put(&buf[..n]),
        Err(_) => out.put_plain(b"fault"),
    }
}

// The longest output that is put as it is.
const SHOWN: usize = 64;

fn put_ran(answer: &ChildAnswer, out: &mut Answer) {
    out.put_shown(&answer.status);
    let output = answer.output.bytes();
    if SHOWN < output.len() {
        out.put_plain(b" ");
        out.put_shown(&output.len());
        out.put_plain(b" bytes");
    } else if !output.is_empty() {
        out.put_plain(b" ");
        out.put(output);
    }
    if answer.cut {
        out.put_plain(b", cut");
    }
}

fn put_child(host: &mut MemHost, rest: &str, out: &mut Answer) {
    let (program, rest) = cut(rest);
    let (input, words) = cut(rest);
    let program = out.decoded(program);
    let input = out.decoded(input);
    let args = words_of(words, out);
    match host.child(out.alloc(), program.bytes(), args.items(), input.bytes()) {
        Ok(answer) => put_ran(&answer, out),
        Err(ChildError::Failed) => out.put_plain(b"failed"),
        Err(ChildError::Memory) => out.put_plain(b"out of memory"),
    }
}

/// Carries out a call, and puts its answer at the end.
pub fn put_call(host: &mut MemHost, line: &str, out: &mut Answer) {
    let (kind, rest) = cut(line);
    match kind {
        "fill" => put_fill(host, out),
        "say" => {
            let bytes = out.decoded(rest);
            out.put_plain(done(host.say(bytes.bytes())));
        }
        "extend" => put_extended(host, rest, out),
        "child" => put_child(host, rest, out),
        "send" => put_sent(host, rest, out),
        "now" => out.put_shown(&host.now()),
        "recover" => commits::put_recovered(host, out),
        "commit" => commits::put_commit(host, rest, out),
        "many" => commits::put_many(host, rest, out),
        "add" => commits::put_added(host, rest, out),
        "empty" => commits::put_emptied(host, rest, out),
        _ => put_named(host, kind, rest, out),
    }
}
