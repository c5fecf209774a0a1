// Cases of macros.
use crate::case::words;
use case_blocks::{Answer, cut};
use mail_text::{Memory, Text, read_number};
use mailx_macros::{MacroError, Macros};

/// What each step of the field answers, with `;` after it, then whether a definition is under way, and the macros that
/// they leave, each as its name and its lines, `NAME<LINE><LINE>..`.
pub fn put(case: &[Text], out: &mut Answer) {
    let mut macros = Macros::new(out.alloc());
    for step in words(case, 1).split(';') {
        put_step(&mut macros, step, out);
        out.put(b";");
    }
    out.put_flag(macros.open());
    for k in 0..macros.count() {
        out.put(b" ");
        out.put(macros.name(k).unwrap_or(b"?"));
        out.put_texts(b"<", macros.body_at(k).unwrap_or(&[]), b">");
    }
    drop(macros);
}

// Does a step: its word, and then the name or the line that it takes.
fn put_step(macros: &mut Macros, step: &str, out: &mut Answer) {
    let (word, rest) = cut(step);
    let rest = rest.as_bytes();
    match word {
        "begin" => put_done(macros.begin(rest), out),
        "refuses" => out.put_found(macros.refuses(rest)),
        "refuses-line" => match macros.refuses_line(rest) {
            Ok(refusal) => out.put_found(refusal),
            Err(Memory) => out.lack(),
        },
        "undef" => out.put_flag(macros.undef(rest)),
        "body" => match macros.body(rest) {
            Some(lines) => out.put_texts(b"<", lines, b">"),
            None => out.put(b"none"),
        },
        _ => put_inside(macros, word, rest, out),
    }
}

// Does a step of the definition that is under way.
fn put_inside(macros: &mut Macros, word: &str, line: &[u8], out: &mut Answer) {
    if !macros.open() {
        return out.put_bad();
    }
    match word {
        "line" => put_done(macros.line(line), out),
        "end" => {
            macros.end();
            out.put(b"ok");
        }
        "abandon" => {
            macros.abandon();
            out.put(b"ok");
        }
        "lines" => put_done(fill(macros, read_number(line).unwrap_or(0)), out),
        _ => out.put_bad(),
    }
}

// Puts `count` empty lines at the end of the definition that is under way.
fn fill(macros: &mut Macros, count: u64) -> Result<(), MacroError> {
    for _ in 0..count {
        if macros.open() {
            macros.line(b"")?;
        }
    }
    Ok(())
}

fn put_done(done: Result<(), MacroError>, out: &mut Answer) {
    match done {
        Ok(()) => out.put(b"ok"),
        Err(error) => out.put_error(error),
    }
}
