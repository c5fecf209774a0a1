// Records of commits.
use case_blocks::{Answer, cut, number};
use commit_record::{Entry, Phase, Record, RecordError, Way, entry_for, is_valid, read, write};
use mail_text::{Items, Memory};
use std::alloc::Global;
use std::str;

// How a file comes to be, and its name: `!` before it removes the file, and `+N:` extends it behind N bytes.
fn way(marked: &str) -> (Way, &str) {
    if let Some(name) = marked.strip_prefix('!') {
        return (Way::Remove, name);
    }
    match marked.strip_prefix('+') {
        Some(rest) => {
            let (at, name) = rest.split_once(':').unwrap_or((rest, ""));
            (Way::Extend(number(at)), name)
        }
        None => (Way::Replace, marked),
    }
}

fn entry(marked: &str, out: &mut Answer) -> Entry {
    let (way, name) = way(marked);
    let name = out.decoded(name);
    entry_for(way, name)
}

fn entries(names: &str, out: &mut Answer) -> Items<Entry> {
    let mut entries = Items::new(out.alloc());
    if names != "-" {
        for name in names.split('|') {
            let entry = entry(name, out);
            out.note(entries.push(entry));
        }
    }
    entries
}

fn are_same(a: &Entry, b: &Entry) -> bool {
    a.kind == b.kind && a.at == b.at && a.name.bytes() == b.name.bytes()
}

fn same(a: &Record, b: &Record) -> bool {
    let (left, right) = (a.entries.items(), b.entries.items());
    a.phase == b.phase
        && a.token == b.token
        && a.moment == b.moment
        && left.len() == right.len()
        && left.iter().zip(right).all(|(x, y)| are_same(x, y))
}

fn is_refused(alloc: Global, bytes: &[u8]) -> bool {
    matches!(read(alloc, bytes), Err(RecordError::NotARecord))
}

/// Whether a text is a record.
pub fn put_read(bytes: &[u8], out: &mut Answer) {
    out.put_plain(match read(out.alloc(), bytes) {
        Ok(_) => b"a record",
        Err(RecordError::NotARecord) => b"none".as_slice(),
        Err(_) => b"out of memory",
    });
}

// Whether the text is read as this record, and no front of it as any.
fn is_read_back(alloc: Global, bytes: &[u8], value: &Record) -> bool {
    for k in 0..bytes.len() {
        let (front, _) = bytes.split_at(k);
        if !is_refused(alloc, front) {
            return false;
        }
    }
    match read(alloc, bytes) {
        Ok(found) => {
            let is = same(&found, value);
            drop(found);
            is
        }
        Err(_) => false,
    }
}

fn put_text(written: &[u8], value: &Record, out: &mut Answer) {
    out.put_plain(b"valid, ");
    out.put_shown(&written.len());
    out.put_plain(b" bytes\n");
    out.put_lines(written);
    out.put_plain(if is_read_back(out.alloc(), written, value) {
        b"read back".as_slice()
    } else {
        b"not read back"
    });
}

fn put_record(value: &Record, out: &mut Answer) {
    if !is_valid(value) {
        return out.put_plain(b"not valid");
    }
    match write(out.alloc(), value) {
        Ok(written) => put_text(written.bytes(), value, out),
        Err(Memory) => out.lack(),
    }
}

// A token in hexadecimal digits, and behind `@` the moment, if there is one.
fn token_and_moment(stamp: &str) -> (u64, Option<i64>) {
    let (digits, moment) = match stamp.split_once('@') {
        Some((digits, seconds)) => (digits, seconds.parse().ok()),
        None => (stamp, None),
    };
    (u64::from_str_radix(digits, 16).unwrap_or(0), moment)
}

/// A record by a line: whether it is valid, how it is written, and whether it is read back.
pub fn put_written(line: &str, out: &mut Answer) {
    let (word, rest) = cut(line);
    let (stamp, names) = cut(rest);
    let (token, moment) = token_and_moment(stamp);
    let entries = entries(names, out);
    let phase = if word == "go" {
        Phase::Go
    } else {
        Phase::Prepare
    };
    let value = Record {
        phase,
        token,
        moment,
        entries,
    };
    put_record(&value, out);
    drop(value);
}

// The text with the first such part replaced, if there is one: whether it is a record.
fn put_swapped(record: &str, old: &str, new: &str, out: &mut Answer) {
    match record.split_once(old) {
        Some((front, back)) => {
            let mut other = Answer::new(out.alloc());
            other.put_plain(front.as_bytes());
            other.put_plain(new.as_bytes());
            other.put_plain(back.as_bytes());
            put_read(other.bytes(), out);
        }
        None => out.put_plain(b"not there"),
    }
}

/// The text of a record with one part replaced by another, as a line says: whether it is a record.
pub fn put_swap(record: &[u8], line: &str, out: &mut Answer) {
    let (old, new) = line.split_once(" => ").unwrap_or((line, ""));
    let old = out.decoded(old);
    let new = out.decoded(new);
    match (
        str::from_utf8(record),
        str::from_utf8(old.bytes()),
        str::from_utf8(new.bytes()),
    ) {
        (Ok(record), Ok(old), Ok(new)) => put_swapped(record, old, new, out),
        _ => out.put_plain(b"no text"),
    }
}
