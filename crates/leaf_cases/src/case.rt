// Cases, read from lines.
use case_blocks::Answer;
use mail_text::{Items, Text};
use std::str;

/// The field at place `k` of a case, or nothing.
pub fn field(case: &[Text], k: usize) -> &[u8] {
    match case.get(k) {
        Some(field) => field.bytes(),
        None => b"",
    }
}

/// The field at place `k` of a case if it is UTF-8, or nothing.
pub fn words(case: &[Text], k: usize) -> &str {
    str::from_utf8(field(case, k)).unwrap_or("")
}

/// The number that a field writes, or 0.
pub fn number(case: &[Text], k: usize) -> u32 {
    words(case, k).parse().unwrap_or(0)
}

/// The place that a field writes, or 0.
pub fn place(case: &[Text], k: usize) -> usize {
    words(case, k).parse().unwrap_or(0)
}

/// The number with a sign that a field writes.
pub fn signed(case: &[Text], k: usize) -> Option<i64> {
    words(case, k).parse().ok()
}

/// The numbers that a text has with a space between one and the next; what is no number is left out.
pub fn numbers(text: &str, out: &mut Answer) -> Items<u32> {
    let mut found = Items::new(out.alloc());
    for word in text.split(' ') {
        if let Ok(n) = word.parse::<u32>() {
            out.note(found.push(n));
        }
    }
    found
}

/// The parts that a text has with this character between one and the next. An empty one is left out, and `''` is one.
pub fn parts(text: &str, apart: char, out: &mut Answer) -> Items<Text> {
    let mut parts = Items::new(out.alloc());
    for part in text.split(apart) {
        if !part.is_empty() {
            let part = out.copied(if part == "''" { b"" } else { part.as_bytes() });
            out.note(parts.push(part));
        }
    }
    parts
}

/// The fields of a case.
pub fn fields_of(line: &str, out: &mut Answer) -> Items<Text> {
    let mut fields = Items::new(out.alloc());
    for field in line.split('|') {
        let field = out.decoded(field);
        out.note(fields.push(field));
    }
    fields
}
