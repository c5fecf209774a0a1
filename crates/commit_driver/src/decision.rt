// The record of a decision, once it is known what is to stand in the files.
ghost use Rattle.std.specs.Prelude.{◌≡◌, ◌<◌, ◌&&◌, ◌||◌, not, true, None, length, map, get_or, slice_set, IfOk};
ghost use Rattle.std.specs.Str.{bytes_eq};
ghost use Rattle.folder_change.specs.Changes.{name_of};
ghost use Rattle.commit_record.specs.Format.{is_valid, written};
ghost use Rattle.commit_record.specs.declared.way.Way.TheVariants as Way;
ghost use Rattle.commit_machine.specs.Edits.{is_added, only_adds};
ghost use Rattle.commit_driver.specs.Places.{tail_at, tails_for, file_way, file_ways, decided_entries, decided_record};
ghost use Rattle.commit_driver.specs.Holding.{stay_end, ends_for, held_first, held_for};

use commit_record::{Entry, Phase, Record, Way, entry_for, write};
use folder_change::{Change, change_name};
use mail_text::{Items, Memory, Text};
use std::alloc::Global;

/// The most bytes of a file that was loaded.
const MOST_BYTES: usize = 268_435_456;

/// As many bytes at a file's end decide what an added change puts behind them.
pub(crate) const END: usize = 2;

/// Whether a change puts its bytes behind those of the file.
pub fn is_added(change: &Change) -> bool
    ensures { result ≡ is_added change.now }
{
    match change {
        Change::Add { .. } | Change::AddRaw { .. } => true,
        Change::Rewrite { .. } | Change::Front { .. } => false,
    }
}

// Whether all changes of the file of this name do.
fn only_adds(changes: &[Change], name: &[u8]) -> bool
    ensures { result ≡ only_adds changes.now name.now }
{
    changes.iter().all(|change| !(name == change_name(change)) || is_added(change))
}

// How many bytes of a loaded file stay, if it stands and is only added to.
fn tail_at(adds: bool, file: &Option<Text>) -> Option<u64>
    ensures { result ≡ tail_at adds file.now }
{
    match file {
        Some(text) if adds && text.bytes().len() <= MOST_BYTES => Some(text.bytes().len() as u64),
        _ => None,
    }
}

/// How many bytes of each loaded file stay, if it stands and is only added to.
pub fn tails_for(
    alloc: Global,
    changes: &[Change],
    entries: &[Entry],
    files: &[Option<Text>],
) -> Result<Items<Option<u64>>, Memory>
    requires { length files.now ≡ length entries.now }
    ensures { IfOk result (λ tails. tails ≡ tails_for changes.now (map (λ e. e.name) entries.now) files.now) }
{
    let mut tails = Items::new(alloc);
    for at in 0..entries.len() {
        let adds = only_adds(changes, entries[at].name.bytes());
        tails.push(tail_at(adds, &files[at]))?;
    }
    Ok(tails)
}

// How a file comes to be that is to be so, if so many of its bytes stay: if it is to be absent, it is removed.
fn file_way(file: &Option<Text>, tail: Option<u64>) -> Way
    ensures { result ≡ file_way file.now tail }
{
    match (file, tail) {
        (None, _) => Way::Remove,
        (Some(_), None) => Way::Replace,
        (Some(_), Some(at)) => Way::Extend(at),
    }
}

/// How many bytes of the file with this number stay.
pub(crate) fn own_tail(tails: &[Option<u64>], at: usize) -> Option<u64>
    ensures { result ≡ get_or tails.now at None }
{
    match tails.get(at) {
        Some(tail) => *tail,
        None => None,
    }
}

// How files come to be that are to be so.
fn ways_of(
    alloc: Global,
    files: &[Option<Text>],
    tails: &[Option<u64>],
) -> Result<Items<Way>, Memory>
    requires { length tails.now ≡ length files.now }
    ensures { IfOk result (λ ways. ways ≡ file_ways files.now tails.now) }
{
    let mut ways = Items::new(alloc);
    for at in 0..files.len() {
        ways.push(file_way(&files[at], own_tail(tails, at)))?;
    }
    Ok(ways)
}

/// How the file with this number comes to be, if that is known.
pub fn own_way(ways: &[Way], at: usize) -> Way
    ensures { result ≡ get_or ways.now at Way.Replace }
{
    match ways.get(at) {
        Some(way) => *way,
        None => Way::Replace,
    }
}

// The entries of files that come to be so.
fn decided_entries(alloc: Global, entries: &[Entry], ways: &[Way]) -> Result<Items<Entry>, Memory>
    requires { length ways.now ≡ length entries.now }
    ensures { IfOk result (λ es. es ≡ decided_entries entries.now ways.now) }
{
    let mut decided = Items::new(alloc);
    for at in 0..entries.len() {
        let name = Text::copy(alloc, entries[at].name.bytes())?;
        decided.push(entry_for(own_way(ways, at), name))?;
    }
    Ok(decided)
}

// The text of the record of the decision, of files that come to be so. `value` is that record as if all were
// replaced.
fn decided_text(alloc: Global, value: &Record, ways: &[Way]) -> Result<Text, Memory>
    requires valid { is_valid value.now ≡ true }
    requires ways { length ways.now ≡ length value.now.entries }
    ensures { IfOk result (λ text. text ≡ written (decided_record value.now ways.now)) }
{
    let decided = Record {
        phase: Phase::Go,
        token: value.token,
        moment: value.moment,
        entries: decided_entries(alloc, value.entries.items(), ways)?,
    };
    write(alloc, &decided)
}

/// How files come to be, and the text of the record that says so.
#[derive(Drop)]
pub struct Decision {
    pub ways: Items<Way>,
    pub text: Text,
}

/// The decision of files that are to be so, of which so many bytes stay. `value` is its record as if all were
/// replaced.
pub fn decided(
    alloc: Global,
    value: &Record,
    files: &[Option<Text>],
    tails: &[Option<u64>],
) -> Result<Decision, Memory>
    requires valid { is_valid value.now ≡ true }
    requires files { length files.now ≡ length value.now.entries }
    requires tails { length tails.now ≡ length value.now.entries }
    ensures ways { IfOk result (λ d. d.ways ≡ file_ways files.now tails.now) }
    ensures text { IfOk result (λ d. d.text ≡ written (decided_record value.now d.ways)) }
{
    let ways = ways_of(alloc, files, tails)?;
    let text = decided_text(alloc, value, ways.items())?;
    Ok(Decision { ways, text })
}

// The end of the bytes that stay of a loaded file.
fn stay_end(file: &Option<Text>, stay: Option<u64>) -> &[u8]
    ensures { result.now ≡ stay_end file.now stay }
{
    match (file, stay) {
        (Some(text), Some(_)) => {
            let (_, end) = text
                .bytes()
                .split_at(text.bytes().len().saturating_sub(END));
            end
        }
        _ => b"",
    }
}

// A copy of it.
fn end_at(alloc: Global, file: &Option<Text>, stay: Option<u64>) -> Result<Text, Memory>
    ensures { IfOk result (λ end. end ≡ stay_end file.now stay) }
{
    Text::copy(alloc, stay_end(file, stay))
}

/// The last two of the bytes that stay of each loaded file.
pub fn ends_for(
    alloc: Global,
    files: &[Option<Text>],
    stays: &[Option<u64>],
) -> Result<Items<Text>, Memory>
    requires { length stays.now ≡ length files.now }
    ensures { IfOk result (λ ends. ends ≡ ends_for files.now stays.now) }
{
    let mut ends = Items::new(alloc);
    for at in 0..files.len() {
        let end = end_at(alloc, &files[at], own_tail(stays, at))?;
        ends.push(end)?;
    }
    Ok(ends)
}

// Lets the bytes of a loaded file go that stay.
fn let_go(alloc: Global, stay: Option<u64>, file: &mut Option<Text>)
    ensures { file.new ≡ held_first stay file.old }
{
    match (file, stay) {
        (Some(text), Some(_)) => *text = Text::new(alloc),
        _ => {}
    }
}

// Lets those of the file with this number go.
fn let_go_at(alloc: Global, stay: Option<u64>, at: usize, files: &mut Items<Option<Text>>)
    requires { at < length files.old }
    ensures { files.new ≡ slice_set files.old at (held_first stay (get_or files.old at None)) }
{
    let_go(alloc, stay, files.get_mut(at));
}

/// Lets the bytes go that stay of loaded files: they are on the disk, and no call wants them.
pub fn let_all_go(alloc: Global, stays: &[Option<u64>], files: &mut Items<Option<Text>>)
    requires { length stays.now ≡ length files.old }
    ensures { files.new ≡ held_for files.old stays.now }
{
    for at in 0..stays.len() {
        let_go_at(alloc, own_tail(stays, at), at, files);
    }
}
