// Cases of quits, each over the variables that are kept.
ghost use Rattle.quit_rules.specs.Plans.{IsOpen};

use crate::case::{field, words};
use crate::mailboxes::folder_of;
use crate::states::mark_in;
use case_blocks::Answer;
use folder_change::Change;
use mail_text::{Items, Memory, Text};
use mailx_vars::Vars;
use message_state::Mark;
use quit_rules::{Batch, BatchItem, Open, Payload, boxed, kept, quit_changes};

/// The folder of a text with these marks, the system mailbox if the kind says so: how many messages stay and how
/// many go to mbox, and the changes. If a file is named, the text after its name is gathered for it, as bytes if `raw`
/// stands after that.
pub fn put(vars: &Vars, case: &[Text], out: &mut Answer) {
    match folder_of(out.alloc(), field(case, 2)) {
        Ok(folder) => {
            let open = Open {
                name: out.copied(b"box"),
                system: words(case, 1) == "system",
                folder,
                marks: marks(words(case, 3), out),
            };
            put_open(&open, vars, case, out);
            drop(open);
        }
        Err(error) => out.put_error(error),
    }
}

// Marks, each of a word.
fn marks(text: &str, out: &mut Answer) -> Items<Mark> {
    let mut marks = Items::new(out.alloc());
    for mark in text.split(' ') {
        if !mark.is_empty() {
            out.note(marks.push(mark_in(mark.as_bytes())));
        }
    }
    marks
}

fn put_open(opened: &Open, vars: &Vars, case: &[Text], out: &mut Answer) {
    if opened.marks.items().len() == opened.folder.count() {
        let gathering = gathering(case, out);
        put_quit(opened, vars, gathering.items(), out);
        drop(gathering);
    } else {
        out.put_bad();
    }
}

// What is put into the file that is named.
fn what(case: &[Text], out: &mut Answer) -> Payload {
    let text = out.copied(field(case, 5));
    if words(case, 6) == "raw" {
        return Payload::Bytes(text);
    }
    let mut texts = Items::new(out.alloc());
    out.note(texts.push(text));
    Payload::Texts(texts)
}

// What is gathered, if a file is named.
fn gathering(case: &[Text], out: &mut Answer) -> Batch {
    let mut gathering = Batch::new(out.alloc());
    if !field(case, 4).is_empty() {
        let name = out.copied(field(case, 4));
        let what = what(case, out);
        let reply = out.copied(b"");
        out.note(gathering.push(BatchItem { name, what, reply }));
    }
    gathering
}

fn put_quit(opened: &Open, vars: &Vars, gathered: &[BatchItem], out: &mut Answer)
    requires { IsOpen opened.now }
{
    out.put_shown(&kept(opened, vars));
    out.put(b" ");
    out.put_shown(&boxed(opened, vars));
    match quit_changes(out.alloc(), opened, vars, b"mbox", gathered) {
        Ok(changes) => {
            put_changes(&changes, out);
            drop(changes);
        }
        Err(Memory) => out.lack(),
    }
}

fn put_changes(changes: &[Change], out: &mut Answer) {
    for change in changes {
        match change {
            Change::Add { name, texts } => put_change(b" add ", name, texts, out),
            Change::Front { name, texts } => put_change(b" front ", name, texts, out),
            Change::Rewrite {
                name,
                list,
                keep: true,
            } => put_change(b" keep ", name, list, out),
            Change::Rewrite { name, list, .. } => put_change(b" drop ", name, list, out),
            Change::AddRaw { name, bytes } => {
                out.put(b" raw ");
                out.put(name.bytes());
                out.put_in_angles(bytes.bytes());
            }
        }
    }
}

fn put_change(kind: &[u8], name: &Text, texts: &Items<Text>, out: &mut Answer) {
    out.put(kind);
    out.put(name.bytes());
    out.put_texts(b"<", texts.items(), b">");
}
