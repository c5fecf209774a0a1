// What changes make of files, by a fold of its own.
use crate::changes::texts;
use crate::files::{found, others};
use case_blocks::{Answer, cut};
use mail_text::{Items, Text};

// The texts, each with an empty line behind it.
fn push_texts(file: &mut Text, barred: &str, out: &mut Answer) {
    let list = texts(barred, out);
    for text in list.items() {
        out.note(file.push(text.bytes()));
        out.note(file.push(b"\n\n"));
    }
}

// The line feeds that the end of a file lacks.
fn lacking(bytes: &[u8]) -> &'static [u8] {
    match bytes {
        [] | [.., b'\n', b'\n'] => b"",
        [.., b'\n'] => b"\n",
        _ => b"\n\n",
    }
}

// What an addition makes of a file.
fn added(kind: &str, current: &[u8], barred: &str, out: &mut Answer) -> Text {
    let mut file = Text::new(out.alloc());
    if kind == "front" {
        push_texts(&mut file, barred, out);
    }
    out.note(file.push(current));
    if kind == "add" {
        out.note(file.push(lacking(current)));
        push_texts(&mut file, barred, out);
    }
    if kind == "raw" {
        let bytes = out.decoded(barred);
        out.note(file.push(bytes.bytes()));
    }
    file
}

// What a rewrite makes of a file: its texts, and what stands behind those of its base. Nothing if these aren't in front.
fn rewritten(current: &[u8], barred: &str, base: &str, out: &mut Answer) -> Text {
    let mut front = Text::new(out.alloc());
    push_texts(&mut front, base, out);
    let mut file = Text::new(out.alloc());
    if let Some(rest) = current.strip_prefix(front.bytes()) {
        push_texts(&mut file, barred, out);
        out.note(file.push(rest));
    }
    file
}

// What a change makes of files.
fn fold_one(files: &[(Text, Text)], change: &str, out: &mut Answer) -> Items<(Text, Text)> {
    let (kind, rest) = cut(change);
    let (name, rest) = cut(rest);
    let (barred, base) = cut(rest);
    let name = out.decoded(name);
    let current = found(files, name.bytes()).unwrap_or(b"");
    let file = if kind == "keep" || kind == "drop" {
        rewritten(current, barred, base, out)
    } else {
        added(kind, current, barred, out)
    };
    let mut after = others(files, name.bytes(), out);
    if kind != "drop" || !file.bytes().is_empty() {
        out.note(after.push((name, file)));
    }
    after
}

/// What the changes of a line make of files, in order.
pub fn fold(files: &[(Text, Text)], line: &str, out: &mut Answer) -> Items<(Text, Text)> {
    let mut after = others(files, b"", out);
    for change in line.split(" ; ") {
        after = fold_one(after.items(), change, out);
    }
    after
}
