// Which records are valid.
ghost use Rattle.std.specs.Prelude.{◌≡◌, ◌-◌, ◌==◌, true, Some, length, drop};
ghost use Rattle.std.specs.List.{list_all, list_any};
ghost use Rattle.std.specs.Str.{bytes_eq};
ghost use Rattle.commit_record.specs.Names.{is_lower_hex, is_staged_end, is_lawful};
ghost use Rattle.commit_record.specs.Format.{are_distinct, fits_kind, is_replace, fit_phase, fits_moment, nearest_moment, most_files, is_valid};

use crate::{Entry, EntryKind, Phase, Record};

/// The most bytes of a name.
const LONGEST_NAME: usize = 4_000;

/// The most files of any record.
pub const FILE_LIMIT: usize = 256;

/// The first moment that a record may have: the second day of 1970.
pub(crate) const FIRST_MOMENT: i64 = 86_400;

/// The last one: the beginning of the last day but one of the year 9999.
pub(crate) const LAST_MOMENT: i64 = 253_402_128_000;

/// The bytes of the end of a staged name: `.mx` and 16 digits.
const STAGED_END: usize = 19;

fn is_lower_hex(byte: u8) -> bool
    ensures { result ≡ is_lower_hex byte }
{
    matches!(byte, b'0'..=b'9' | b'a'..=b'f')
}

fn are_lower_hex(bytes: &[u8]) -> bool
    ensures { result ≡ list_all is_lower_hex bytes.now }
{
    bytes.iter().all(|byte| is_lower_hex(*byte))
}

// Whether these are `.mx` and 16 lower case hexadecimal digits.
fn is_staged_end(end: &[u8]) -> bool
    ensures { result ≡ is_staged_end end.now }
{
    if end.len() != STAGED_END {
        return false;
    }
    let (mark, digits) = end.split_at(3);
    mark == b".mx".as_slice() && are_lower_hex(digits)
}

// Whether the name ends as a staged name does.
fn is_staged(name: &[u8]) -> bool
    ensures { result ≡ is_staged_end (drop (length name.now - 19) name.now) }
{
    let (_, end) = name.split_at(name.len().saturating_sub(STAGED_END));
    is_staged_end(end)
}

/// Whether an entry may have this name: there are 1 to 4,000 bytes, none of them zero, and they end neither in
/// `.lock` nor in `.mx` and 16 lower case hexadecimal digits. It takes no memory.
pub fn is_lawful(name: &[u8]) -> bool
    ensures { result ≡ is_lawful name.now }
{
    !name.is_empty()
        && name.len() <= LONGEST_NAME
        && !name.contains(&0)
        && !name.ends_with(b".lock")
        && !is_staged(name)
}

fn are_lawful(entries: &[Entry]) -> bool
    ensures { result ≡ list_all (λ e. is_lawful e.name) entries.now }
{
    entries.iter().all(|entry| is_lawful(entry.name.bytes()))
}

// Whether an entry has this name.
fn has_name(entries: &[Entry], name: &[u8]) -> bool
    ensures { result ≡ list_any (λ e. bytes_eq name.now e.name) entries.now }
{
    entries.iter().any(|entry| name == entry.name.bytes())
}

fn are_distinct(entries: &[Entry]) -> bool
    ensures { result ≡ are_distinct entries.now }
{
    match entries {
        [] => true,
        [first, rest @ ..] => !has_name(rest, first.name.bytes()) && are_distinct(rest),
    }
}

// Whether the number of bytes that stay is 0, or the file is extended.
fn fits_kind(entry: &Entry) -> bool
    ensures { result ≡ fits_kind entry.now }
{
    match entry.kind {
        EntryKind::Replace | EntryKind::Remove => entry.at == 0,
        EntryKind::Extend => true,
    }
}

fn fit_kinds(entries: &[Entry]) -> bool
    ensures { result ≡ list_all fits_kind entries.now }
{
    entries.iter().all(|entry| fits_kind(entry))
}

fn is_replace(kind: EntryKind) -> bool
    ensures { result ≡ is_replace kind }
{
    match kind {
        EntryKind::Replace => true,
        EntryKind::Remove | EntryKind::Extend => false,
    }
}

fn are_replaced(entries: &[Entry]) -> bool
    ensures { result ≡ list_all (λ e. is_replace e.kind) entries.now }
{
    entries.iter().all(|entry| is_replace(entry.kind))
}

// Whether a record of this phase may say so of its files.
fn fit_phase(phase: Phase, entries: &[Entry]) -> bool
    ensures { result ≡ fit_phase phase entries.now }
{
    match phase {
        Phase::Prepare => are_replaced(entries),
        Phase::Go => true,
    }
}

// Whether a record may have this moment.
fn fits_moment(moment: Option<i64>) -> bool
    ensures { result ≡ fits_moment moment }
{
    match moment {
        None => true,
        Some(moment) => FIRST_MOMENT <= moment && moment <= LAST_MOMENT,
    }
}

/// The moment of a record that is nearest to a time, in seconds since 1970 in UTC.
pub fn nearest_moment(seconds: i64) -> i64
    ensures value { result ≡ nearest_moment seconds }
    ensures fits { fits_moment (Some result) ≡ true }
{
    seconds.clamp(FIRST_MOMENT, LAST_MOMENT)
}

/// The most entries of a record with this moment: 256, or 16 if it has none.
pub fn most_files(moment: Option<i64>) -> usize
    ensures { result ≡ most_files moment }
{
    match moment {
        None => 16,
        Some(_) => FILE_LIMIT,
    }
}

/// Whether the record has 1 to 16 entries, or with a moment 1 to 256, with distinct lawful names, and before the
/// decision replaces all files. Some bytes of a file stay only if it is extended, and a moment is from the second day of
/// 1970 to the beginning of the last day but one of the year 9999. It takes no memory.
pub fn is_valid(value: &Record) -> bool
    ensures { result ≡ is_valid value.now }
{
    let entries = value.entries.items();
    !entries.is_empty()
        && entries.len() <= most_files(value.moment)
        && are_lawful(entries)
        && are_distinct(entries)
        && fit_kinds(entries)
        && fit_phase(value.phase, entries)
        && fits_moment(value.moment)
}
