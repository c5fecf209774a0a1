// Cases of headers.
use crate::case::{field, words};
use case_blocks::Answer;
use mail_headers::{EntryRef, FieldRef, Header, unfold_value, unfolded};
use mail_text::{Memory, Text};

pub fn put(case: &[Text], out: &mut Answer) {
    match Header::read(out.alloc(), field(case, 2)) {
        Ok(header) => {
            put_of(&header, case, out);
            drop(header);
        }
        Err(Memory) => out.lack(),
    }
}

fn put_of(header: &Header<'_>, case: &[Text], out: &mut Answer) {
    match words(case, 1) {
        "parts" => put_parts(header, out),
        "field" => match header.field(field(case, 3)) {
            Some(field) => out.put(field.raw()),
            None => out.put(b"none"),
        },
        "fields" => put_field_count(header, out),
        "unfolded" => put_values(header, true, out),
        "value" => put_values(header, false, out),
        _ => out.put_bad(),
    }
}

// `<From line>`, `[name=value]` for a field, `(line)` for another line, and `|body` if there is one.
fn put_parts(header: &Header<'_>, out: &mut Answer) {
    out.put_in_angles(header.from_line());
    for entry in header.entries() {
        put_entry(&entry, out);
    }
    if header.has_body() {
        out.put(b"|");
    }
    out.put(header.body());
}

fn put_entry(entry: &EntryRef<'_>, out: &mut Answer) {
    match entry.field() {
        Some(field) => {
            out.put(b"[");
            out.put(field.name());
            out.put(b"=");
            out.put(field.value());
            out.put(b"]");
        }
        None => {
            out.put(b"(");
            out.put(entry.raw());
            out.put(b")");
        }
    }
}

// How many fields there are, and how many of them are longer than their name.
fn put_field_count(header: &Header<'_>, out: &mut Answer) {
    let mut count = 0u64;
    let mut longer = 0u64;
    for field in header.fields() {
        count = count.wrapping_add(1);
        if field.raw().len() > field.name().len() {
            longer = longer.wrapping_add(1);
        }
    }
    out.put_shown(&count);
    out.put(b" ");
    out.put_shown(&longer);
}

// The unfolded value of a field as a text of its own.
fn put_unfolded(field: FieldRef<'_>, out: &mut Answer) {
    out.put(b"<");
    out.put_made(unfolded(out.alloc(), field));
    out.put(b">");
}

// The unfolded value of a field, of which one without a line feed is a part of the header.
fn put_value(field: FieldRef<'_>, out: &mut Answer) {
    match unfold_value(out.alloc(), field) {
        Ok(value) => out.put_in_angles(value.bytes()),
        Err(Memory) => out.lack(),
    }
}

// The unfolded value of each field, as a text of its own if `whole` is set.
fn put_values(header: &Header<'_>, whole: bool, out: &mut Answer) {
    for field in header.fields() {
        if whole {
            put_unfolded(field, out);
        } else {
            put_value(field, out);
        }
    }
}
