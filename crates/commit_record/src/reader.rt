// The record that a text gives. Its parts are looked for from the front, each with what follows it; then the record is
// written, and its text compared with the bytes.
ghost use Rattle.std.specs.Prelude.{◌≡◌, ◌≤◌, ◌⊎◌, [], true, pos, length, IfOk};
ghost use Rattle.std.specs.Bool.{Decides};
ghost use Rattle.std.specs.Char.{is_ascii_digit};
ghost use Rattle.std.specs.List.{list_all, prefix_len};
ghost use Rattle.std.specs.Option.{option_copied, option_map};
ghost use Rattle.std.specs.Str.{bytes_eq};
ghost use Rattle.commit_record.specs.Format.{IsWritten, fits_number};
ghost use Rattle.commit_record.specs.Reading.{after, as_moment, at_at, count_at, counted_head, counted_name_at, entries_at, entry_at, head_at, kind_at, moment_at, moment_head, name_at, number_at, phase_at, phase_head, record_at, token_at, token_head, version_at, with_entries};

use crate::valid::{LAST_MOMENT, is_valid, most_files};
use crate::writer::write;
use crate::{Entry, EntryKind, Phase, Record, RecordError};
use mail_text::{Items, Memory, Text, read_number};
use std::alloc::Global;

/// The seconds of the last moment.
const LAST_SECONDS: u64 = LAST_MOMENT as u64;

/// The digits of a token.
const TOKEN_DIGITS: usize = 16;

// The version of a record: the second one has a moment, and more files.
#[derive(Clone, Copy)]
pub(crate) enum Version {
    One,
    Two,
}

// What a record says before its entries.
#[derive(Clone, Copy)]
pub(crate) struct Head {
    phase: Phase,
    token: u64,
    moment: Option<i64>,
    count: u64,
}

// What follows a front.
#[tactic(auto, unfolding(crate::specs::Reading::after))]
fn after<'a>(front: &[u8], bytes: &'a [u8]) -> Option<&'a [u8]>
    ensures { option_copied result ≡ after front.now bytes.now }
{
    bytes.strip_prefix(front)
}

// How many decimal digits stand at the front.
fn digits(bytes: &[u8]) -> usize
    ensures value { result ≡ prefix_len is_ascii_digit bytes.now }
    ensures within { result ≤ length bytes.now }
{
    bytes
        .iter()
        .position(|byte| !byte.is_ascii_digit())
        .unwrap_or(bytes.len())
}

// A number in decimal digits.
#[tactic(auto, unfolding(crate::specs::Reading::number_at))]
fn number_at(bytes: &[u8]) -> Option<(u64, &[u8])>
    ensures { option_map (λ p. (p.0, p.1.now)) result ≡ number_at bytes.now }
{
    let (digits, rest) = bytes.split_at(digits(bytes));
    match read_number(digits) {
        Some(number) => Some((number, rest)),
        None => None,
    }
}

// A number in 16 hexadecimal digits.
#[tactic(auto, unfolding(crate::specs::Reading::token_at))]
fn token_at(bytes: &[u8]) -> Option<(u64, &[u8])>
    ensures { option_map (λ p. (p.0, p.1.now)) result ≡ token_at bytes.now }
{
    if bytes.len() < TOKEN_DIGITS {
        return None;
    }
    let (digits, rest) = bytes.split_at(TOKEN_DIGITS);
    let mut token = [0; 8];
    match hex::decode_to_slice(digits, &mut token) {
        Ok(()) => Some((u64::from_be_bytes(token), rest)),
        Err(_) => None,
    }
}

// The word of a phase and its line feed.
#[tactic(auto, unfolding(crate::specs::Reading::phase_at))]
fn phase_at(bytes: &[u8]) -> Option<(Phase, &[u8])>
    ensures { option_map (λ p. (p.0, p.1.now)) result ≡ phase_at bytes.now }
{
    match after(b"prepare\n", bytes) {
        Some(rest) => Some((Phase::Prepare, rest)),
        None => match after(b"go\n", bytes) {
            Some(rest) => Some((Phase::Go, rest)),
            None => None,
        },
    }
}

// The word of a kind and the space after it.
#[tactic(auto, unfolding(crate::specs::Reading::kind_at))]
fn kind_at(bytes: &[u8]) -> Option<(EntryKind, &[u8])>
    ensures { option_map (λ p. (p.0, p.1.now)) result ≡ kind_at bytes.now }
{
    match after(b"replace ", bytes) {
        Some(rest) => Some((EntryKind::Replace, rest)),
        None => match after(b"remove ", bytes) {
            Some(rest) => Some((EntryKind::Remove, rest)),
            None => match after(b"extend ", bytes) {
                Some(rest) => Some((EntryKind::Extend, rest)),
                None => None,
            },
        },
    }
}

// How many bytes stay of the file of an entry of this kind.
#[tactic(auto, unfolding(crate::specs::Reading::at_at))]
fn at_at(kind: EntryKind, bytes: &[u8]) -> Option<(u64, &[u8])>
    ensures { option_map (λ p. (p.0, p.1.now)) result ≡ at_at kind bytes.now }
{
    match kind {
        EntryKind::Replace | EntryKind::Remove => Some((0, bytes)),
        EntryKind::Extend => {
            let (at, rest) = number_at(bytes)?;
            let rest = after(b" ", rest)?;
            Some((at, rest))
        }
    }
}

// `length` bytes, and a line feed.
#[tactic(auto, unfolding(crate::specs::Reading::name_at))]
fn name_at(length: u64, bytes: &[u8]) -> Option<(&[u8], &[u8])>
    ensures { option_map (λ p. (p.0.now, p.1.now)) result ≡ name_at length bytes.now }
{
    if (bytes.len() as u64) < length {
        return None;
    }
    let (name, rest) = bytes.split_at(length as usize);
    match after(b"\n", rest) {
        Some(rest) => Some((name, rest)),
        None => None,
    }
}

// What an entry's line says after its kind.
#[tactic(auto, unfolding(crate::specs::Reading::counted_name_at))]
fn counted_name_at(bytes: &[u8]) -> Option<(&[u8], &[u8])>
    ensures { option_map (λ p. (p.0.now, p.1.now)) result ≡ counted_name_at bytes.now }
{
    let (length, rest) = number_at(bytes)?;
    let rest = after(b" ", rest)?;
    name_at(length, rest)
}

// The line of an entry: its kind, the number of bytes that stay, its name and what follows the line.
#[tactic(auto, unfolding(crate::specs::Reading::entry_at))]
fn entry_at(bytes: &[u8]) -> Option<(EntryKind, u64, &[u8], &[u8])>
    ensures { option_map (λ p. (record { kind = p.0; at = p.1; name = p.2.now }, p.3.now)) result ≡ entry_at bytes.now }
{
    let (kind, rest) = kind_at(bytes)?;
    let (at, rest) = at_at(kind, rest)?;
    let (name, rest) = counted_name_at(rest)?;
    Some((kind, at, name, rest))
}

// The entries of `count` lines.
fn entries_at(alloc: Global, count: u64, bytes: &[u8]) -> Result<Option<Items<Entry>>, Memory>
    ensures { IfOk result (λ found. found ≡ entries_at count [] bytes.now) }
{
    let mut entries = Items::new(alloc);
    let mut rest = bytes;
    for _line in 0..count {
        match entry_at(rest) {
            Some((kind, at, name, after)) => {
                let name = Text::copy(alloc, name)?;
                entries.push(Entry { kind, at, name })?;
                rest = after;
            }
            None => return Ok(None),
        }
    }
    Ok(Some(entries))
}

// A number, and the line feed after it.
#[tactic(auto, unfolding(crate::specs::Reading::count_at))]
fn count_at(bytes: &[u8]) -> Option<(u64, &[u8])>
    ensures { option_map (λ p. (p.0, p.1.now)) result ≡ count_at bytes.now }
{
    let (count, rest) = number_at(bytes)?;
    let rest = after(b"\n", rest)?;
    Some((count, rest))
}

// The version, by the first line.
#[tactic(auto, unfolding(crate::specs::Reading::version_at))]
fn version_at(bytes: &[u8]) -> Option<(Version, &[u8])>
    ensures { option_map (λ p. (p.0, p.1.now)) result ≡ version_at bytes.now }
{
    match after(b"mailx-commit 1\n", bytes) {
        Some(rest) => Some((Version::One, rest)),
        None => match after(b"mailx-commit 2\n", bytes) {
            Some(rest) => Some((Version::Two, rest)),
            None => None,
        },
    }
}

// A number of seconds as a signed one.
fn signed(seconds: u64) -> i64
    requires { seconds ≤ 253_402_128_000 }
    ensures { result ≡ pos seconds }
{
    seconds as i64
}

// A number of seconds as a moment, if there is none that is later.
fn as_moment(seconds: u64) -> Option<i64>
    ensures { result ≡ as_moment seconds }
{
    if seconds <= LAST_SECONDS {
        Some(signed(seconds))
    } else {
        None
    }
}

// The moment of a record of this version.
#[tactic(auto, unfolding(crate::specs::Reading::moment_at))]
fn moment_at(version: Version, bytes: &[u8]) -> Option<(Option<i64>, &[u8])>
    ensures { option_map (λ p. (p.0, p.1.now)) result ≡ moment_at version bytes.now }
{
    match version {
        Version::One => Some((None, bytes)),
        Version::Two => {
            let rest = after(b"\nmoment ", bytes)?;
            let (seconds, rest) = number_at(rest)?;
            let moment = as_moment(seconds)?;
            Some((Some(moment), rest))
        }
    }
}

// The number of entries, after this phase, this token and this moment.
#[tactic(auto, unfolding(crate::specs::Reading::counted_head))]
fn counted_head(
    phase: Phase,
    token: u64,
    moment: Option<i64>,
    bytes: &[u8],
) -> Option<(Head, &[u8])>
    ensures { option_map (λ p. (p.0, p.1.now)) result ≡ counted_head phase token moment bytes.now }
{
    let rest = after(b"\nentries ", bytes)?;
    let (count, rest) = count_at(rest)?;
    Some((
        Head {
            phase,
            token,
            moment,
            count,
        },
        rest,
    ))
}

// The moment and the number of entries, after this phase and this token.
#[tactic(auto, unfolding(crate::specs::Reading::moment_head))]
fn moment_head(version: Version, phase: Phase, token: u64, bytes: &[u8]) -> Option<(Head, &[u8])>
    ensures { option_map (λ p. (p.0, p.1.now)) result ≡ moment_head version phase token bytes.now }
{
    let (moment, rest) = moment_at(version, bytes)?;
    counted_head(phase, token, moment, rest)
}

// The token, the moment and the number of entries, after this phase.
#[tactic(auto, unfolding(crate::specs::Reading::token_head))]
fn token_head(version: Version, phase: Phase, bytes: &[u8]) -> Option<(Head, &[u8])>
    ensures { option_map (λ p. (p.0, p.1.now)) result ≡ token_head version phase bytes.now }
{
    let rest = after(b"token ", bytes)?;
    let (token, rest) = token_at(rest)?;
    moment_head(version, phase, token, rest)
}

// The phase, the token, the moment and the number of entries of a record of this version.
#[tactic(auto, unfolding(crate::specs::Reading::phase_head))]
fn phase_head(version: Version, bytes: &[u8]) -> Option<(Head, &[u8])>
    ensures { option_map (λ p. (p.0, p.1.now)) result ≡ phase_head version bytes.now }
{
    let rest = after(b"phase ", bytes)?;
    let (phase, rest) = phase_at(rest)?;
    token_head(version, phase, rest)
}

// What a record says before its entries.
#[tactic(auto, unfolding(crate::specs::Reading::head_at))]
fn head_at(bytes: &[u8]) -> Option<(Head, &[u8])>
    ensures { option_map (λ p. (p.0, p.1.now)) result ≡ head_at bytes.now }
{
    let (version, rest) = version_at(bytes)?;
    phase_head(version, rest)
}

// The record of this head with these entries, if there are any.
fn with_entries(head: Head, entries: Option<Items<Entry>>) -> Option<Record>
    ensures { result ≡ option_map (with_entries head) entries }
{
    let entries = entries?;
    Some(Record {
        phase: head.phase,
        token: head.token,
        moment: head.moment,
        entries,
    })
}

// The record that the bytes may be the text of.
#[tactic(auto, unfolding(crate::specs::Reading::record_at))]
fn record_at(alloc: Global, bytes: &[u8]) -> Result<Option<Record>, Memory>
    ensures { IfOk result (λ found. found ≡ record_at bytes.now) }
{
    match head_at(bytes) {
        Some((head, rest)) if head.count <= most_files(head.moment) as u64 => {
            let found = entries_at(alloc, head.count, rest)?;
            Ok(with_entries(head, found))
        }
        _ => Ok(None),
    }
}

fn is_same(text: &Text, bytes: &[u8]) -> bool
    ensures { result ≡ bytes_eq text.now bytes.now }
{
    text.bytes() == bytes
}

// A number of this type fits 64 bits.
fn fits_number(entry: &Entry) -> bool
    ensures { result ≡ fits_number entry.now }
{
    let _at = entry.at;
    true
}

fn fit_numbers(entries: &[Entry]) -> bool
    ensures { result ≡ list_all fits_number entries.now }
{
    entries.iter().all(|entry| fits_number(entry))
}

// Whether the bytes are the text of this record.
fn is_text_of(alloc: Global, value: &Record, bytes: &[u8]) -> Result<bool, Memory>
    ensures { IfOk result (λ is. Decides is (IsWritten bytes.now value.now)) }
{
    // The token fits 64 bits.
    let _token = value.token;
    if !is_valid(value) || !fit_numbers(value.entries.items()) {
        return Ok(false);
    }
    let text = write(alloc, value)?;
    Ok(is_same(&text, bytes))
}

// This record, if the bytes are its text.
fn checked(alloc: Global, value: Record, bytes: &[u8]) -> Result<Record, RecordError>
    ensures ok { IfOk result (λ r. (r ≡ value) × IsWritten bytes.now value) }
    ensures not_a_record { result ≡ Err RecordError.NotARecord → IsWritten bytes.now value → ⊥ }
{
    let is = is_text_of(alloc, &value, bytes)?;
    if is {
        Ok(value)
    } else {
        Err(RecordError::NotARecord)
    }
}

/// The record that bytes are the text of. `NotARecord` comes exactly if they are the text of no valid record, so
/// also if a byte stands after the last line, a number has a leading zero, or a digit of the token is upper
/// case.
pub fn read(alloc: Global, bytes: &[u8]) -> Result<Record, RecordError>
    ensures ok { IfOk result (λ r. IsWritten bytes.now r) }
    ensures not_a_record { result ≡ Err RecordError.NotARecord → (r : Record) → IsWritten bytes.now r → ⊥ }
    ensures read_back { (r : Record) → IsWritten bytes.now r → (result ≡ Ok r) ⊎ (result ≡ Err RecordError.Memory) }
{
    let found = record_at(alloc, bytes)?;
    match found {
        Some(value) => checked(alloc, value, bytes),
        None => Err(RecordError::NotARecord),
    }
}
