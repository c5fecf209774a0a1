// Changes as text.
use actor_core::CoreChange;
use case_blocks::{Answer, cut};
use mail_text::{Items, Text};

/// The texts between bars; none if there are no bytes, or a minus alone.
pub fn texts(barred: &str, out: &mut Answer) -> Items<Text> {
    let mut texts = Items::new(out.alloc());
    if !barred.is_empty() && barred != "-" {
        for text in barred.split('|') {
            let text = out.decoded(text);
            out.note(texts.push(text));
        }
    }
    texts
}

// A change of the file of this name.
fn change_of(kind: &str, name: Text, rest: &str, out: &mut Answer) -> CoreChange {
    let (barred, base) = cut(rest);
    match kind {
        "raw" => CoreChange::AddRaw {
            name,
            bytes: out.decoded(barred),
        },
        "add" => CoreChange::Add {
            name,
            texts: texts(barred, out),
        },
        "front" => CoreChange::Front {
            name,
            texts: texts(barred, out),
        },
        _ => {
            let list = texts(barred, out);
            let base = texts(base, out);
            CoreChange::Rewrite {
                name,
                list,
                keep: kind == "keep",
                base,
            }
        }
    }
}

/// The changes between semicolons; none if there are no bytes.
pub fn changes(line: &str, out: &mut Answer) -> Items<CoreChange> {
    let mut changes = Items::new(out.alloc());
    if !line.is_empty() {
        for part in line.split(" ; ") {
            let (kind, rest) = cut(part);
            let (name, rest) = cut(rest);
            let name = out.decoded(name);
            let change = change_of(kind, name, rest, out);
            out.note(changes.push(change));
        }
    }
    changes
}
