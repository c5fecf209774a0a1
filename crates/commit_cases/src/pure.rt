// Lines that need no host.
use crate::changes::put_change;
use crate::commits::{may_change, put_words};
use crate::large::put_large;
use crate::records::{put_read, put_swap, put_written};
use crate::sending::put_sendable;
use case_blocks::{Answer, Case, cut, number, text_under};
use commit_machine::{is_record_name, new_name, record_name, right_name, staged_name};
use commit_record::is_lawful;

// The names of an actor, and that of a staged file.
fn put_names(rest: &str, out: &mut Answer) {
    let (actor, rest) = cut(rest);
    let (token, name) = cut(rest);
    let actor = actor.as_bytes();
    out.put_plain(b"record ");
    out.put_made(record_name(out.alloc(), actor));
    out.put_plain(b", new ");
    out.put_made(new_name(out.alloc(), actor));
    out.put_plain(b", right ");
    out.put_made(right_name(out.alloc(), actor));
    out.put_plain(b", staged ");
    out.put_made(staged_name(out.alloc(), number(token), name.as_bytes()));
}

// A line that speaks of the text below the line `record`.
fn put_of_record(case: Case<'_>, line: &str, out: &mut Answer) {
    let record = text_under(case.own, "record", out);
    match line.strip_prefix("swap ") {
        Some(rest) => put_swap(record.bytes(), rest, out),
        None => put_read(record.bytes(), out),
    }
}

/// Puts the answer of a line at the end.
pub fn put_answer(case: Case<'_>, line: &str, out: &mut Answer) {
    let (kind, rest) = cut(line);
    match kind {
        "change" => put_change(rest, out),
        "write" => put_written(rest, out),
        "lawful" => {
            let name = out.decoded(rest);
            out.put_flag(is_lawful(name.bytes()));
        }
        "own" => out.put_flag(may_change(rest.as_bytes())),
        "taken" => {
            let (actor, name) = cut(rest);
            out.put_flag(is_record_name(actor.as_bytes(), name.as_bytes()));
        }
        "names" => put_names(rest, out),
        "sendable" => put_sendable(rest, out),
        "words" => put_words(out),
        "large" => put_large(out),
        _ => put_of_record(case, line, out),
    }
}
