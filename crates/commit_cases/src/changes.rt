// What changes make of a file.
use case_blocks::{Answer, cut};
use folder_change::{Change, ChangeError, change_name, outcome};
use mail_text::{Items, Text};
use mbox_scan::Folder;

// The texts between bars; none if there are no bytes.
fn texts(barred: &str, out: &mut Answer) -> Items<Text> {
    let mut texts = Items::new(out.alloc());
    if !barred.is_empty() {
        for text in barred.split('|') {
            let text = out.decoded(text);
            out.note(texts.push(text));
        }
    }
    texts
}

/// The change of a file of this kind and name, with these texts.
pub fn change(kind: &str, name: &str, barred: &str, out: &mut Answer) -> Change {
    let name = out.decoded(name);
    match kind {
        "raw" => Change::AddRaw {
            name,
            bytes: out.decoded(barred),
        },
        "add" => Change::Add {
            name,
            texts: texts(barred, out),
        },
        "front" => Change::Front {
            name,
            texts: texts(barred, out),
        },
        _ => Change::Rewrite {
            name,
            list: texts(barred, out),
            keep: kind == "keep",
        },
    }
}

/// The changes between semicolons, each its kind, the name of its file and its texts.
pub fn changes(line: &str, out: &mut Answer) -> Items<Change> {
    let mut changes = Items::new(out.alloc());
    for part in line.split(" ; ") {
        let (kind, rest) = cut(part);
        let (name, barred) = cut(rest);
        let change = change(kind, name, barred, out);
        out.note(changes.push(change));
    }
    changes
}

// What came of a change.
fn put_outcome(found: &Result<Option<Text>, ChangeError>, out: &mut Answer) {
    match found {
        Ok(Some(file)) => {
            out.put_plain(b"file ");
            out.put(file.bytes());
        }
        Ok(None) => out.put_plain(b"no file"),
        Err(ChangeError::Changed { at }) => {
            out.put_plain(b"changed ");
            out.put_shown(at);
        }
        Err(_) => out.put_plain(b"out of memory"),
    }
}

// What a change makes of a file, if a rewrite was made for a folder of this text.
fn put_made(current: Option<&[u8]>, change: &Change, base: Text, out: &mut Answer) {
    match Folder::open(out.alloc(), base) {
        Ok(base) => {
            out.put_plain(change_name(change));
            out.put_plain(b": ");
            let made = outcome(out.alloc(), current, change, Some(&base));
            drop(base);
            put_outcome(&made, out);
            drop(made);
        }
        Err(_) => out.put_plain(b"no folder"),
    }
}

// The parts of a line between slashes.
fn parts(line: &str) -> (&str, &str, &str, &str) {
    let (kind, rest) = line.split_once(" / ").unwrap_or((line, ""));
    let (current, rest) = rest.split_once(" / ").unwrap_or((rest, ""));
    let (base, texts) = rest.split_once(" / ").unwrap_or((rest, ""));
    (kind, current, base, texts)
}

/// A change by a line: what it makes of the file.
pub fn put_change(line: &str, out: &mut Answer) {
    let (kind, current, base, texts) = parts(line);
    let change = change(kind, "box", texts, out);
    let base = out.decoded(base);
    if current == "-" {
        put_made(None, &change, base, out);
    } else {
        let current = out.decoded(current);
        put_made(Some(current.bytes()), &change, base, out);
    }
    drop(change);
}
