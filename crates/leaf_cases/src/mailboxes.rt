// Cases of mailbox files.
use crate::case::{field, words};
use case_blocks::Answer;
use mail_text::Text;
use mbox_scan::{Folder, ScanError, Texts, is_mailbox, trimmed_len};
use std::alloc::Global;

pub fn put(case: &[Text], out: &mut Answer) {
    let bytes = field(case, 2);
    match words(case, 1) {
        "texts" => {
            out.put_flag(is_mailbox(bytes));
            out.put(b":");
            put_texts(bytes, out);
        }
        "count" => put_count(bytes, out),
        "grow" => put_growth(bytes, field(case, 3), true, out),
        "room" => put_growth(bytes, field(case, 3), false, out),
        "trimmed" => out.put_shown(&trimmed_len(bytes)),
        _ => out.put_bad(),
    }
}

/// The folder of these bytes.
pub fn folder_of(alloc: Global, bytes: &[u8]) -> Result<Folder, ScanError> {
    Folder::open(alloc, Text::copy(alloc, bytes)?)
}

// The lengths of the texts of bytes by a folder and one after the other, or why there is none.
fn put_texts(bytes: &[u8], out: &mut Answer) {
    match folder_of(out.alloc(), bytes) {
        Ok(folder) => {
            put_lengths(&folder, bytes, out);
            drop(folder);
        }
        Err(error) => {
            out.put(b" ");
            out.put_error(error);
        }
    }
}

// The lengths of the texts of a folder.
fn put_each_length(folder: &Folder, out: &mut Answer) {
    for k in 0..folder.count() {
        put_length(out, folder.message(k).text());
    }
}

fn put_lengths(folder: &Folder, bytes: &[u8], out: &mut Answer) {
    put_each_length(folder, out);
    out.put(b":");
    if is_mailbox(bytes) {
        let mut texts = Texts::of(bytes);
        for _ in 0..=folder.count() {
            if let Some(text) = texts.next_text() {
                put_length(out, text);
            }
        }
    }
}

fn put_length(out: &mut Answer, text: &[u8]) {
    out.put(b" ");
    out.put_shown(&text.len());
}

// How many messages a folder has, or why it has none.
fn put_count(bytes: &[u8], out: &mut Answer) {
    match folder_of(out.alloc(), bytes) {
        Ok(folder) => {
            out.put_shown(&folder.count());
            drop(folder);
        }
        Err(error) => out.put_error(error),
    }
}

// How many messages a folder has, and how many others bring or why they don't come; then the lengths of all texts, or
// how many there are.
fn put_growth(bytes: &[u8], tail: &[u8], lengths: bool, out: &mut Answer) {
    match folder_of(out.alloc(), bytes) {
        Ok(folder) => put_grown(folder, tail, lengths, out),
        Err(error) => out.put_error(error),
    }
}

fn put_grown(folder: Folder, tail: &[u8], lengths: bool, out: &mut Answer) {
    let mut folder = folder;
    out.put_shown(&folder.count());
    out.put(b", ");
    match folder.grow(tail) {
        Ok(came) => out.put_shown(&came),
        Err(error) => out.put_error(error),
    }
    if lengths {
        out.put(b":");
        put_each_length(&folder, out);
    } else {
        out.put(b", ");
        out.put_shown(&folder.count());
    }
    out.put(b" of ");
    out.put_shown(&folder.bytes().len());
    drop(folder);
}
