// Cases of messages that are kept for their sender, each over the variables that are kept.
use crate::case::{field, words};
use case_blocks::Answer;
use dead_letter::{dead_change, record_change};
use folder_change::Change;
use mail_text::{Memory, Text};
use mailx_vars::Vars;

/// The change that puts a text into a record or into the dead letter, or none.
pub fn put(vars: &Vars, case: &[Text], out: &mut Answer) {
    let (text, file) = (field(case, 2), field(case, 3));
    match words(case, 1) {
        "record" => put_change(record_change(out.alloc(), text, file, false, vars), out),
        "named" => put_change(record_change(out.alloc(), text, file, true, vars), out),
        "dead" => put_change(dead_change(out.alloc(), text, file, vars), out),
        _ => out.put_bad(),
    }
}

fn put_change(change: Result<Option<Change>, Memory>, out: &mut Answer) {
    match change {
        Ok(Some(change)) => {
            put_made(&change, out);
            drop(change);
        }
        Ok(None) => out.put(b"none"),
        Err(Memory) => out.lack(),
    }
}

fn put_made(change: &Change, out: &mut Answer) {
    match change {
        Change::Add { name, texts } => {
            out.put(b"add ");
            out.put(name.bytes());
            out.put_texts(b"<", texts.items(), b">");
        }
        _ => out.put(b"another"),
    }
}
