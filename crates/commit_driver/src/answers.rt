// How far a job has come after an answer.
ghost use Rattle.std.specs.Prelude.{true, ◌≡◌, ◌<◌, ◌+◌, length, take, All, IsTrue, IsSome, IfOk, option_copied, List, ℕ, map};
ghost use Rattle.folder_change.specs.Changes.{is_rewrite};
ghost use Rattle.folder_change.specs.Outcomes.{base_list};
ghost use Rattle.commit_machine.specs.Names.{staged_name};
ghost use Rattle.commit_machine.specs.Records.{is_go};
ghost use Rattle.commit_machine.specs.Records.{has, names_of};
ghost use Rattle.folder_change.specs.Changes.{name_of};
ghost use Rattle.commit_driver.specs.declared.step.Step.TheVariants as Step;
ghost use Rattle.commit_record.specs.Format.{is_valid};
ghost use Rattle.commit_driver.specs.Steps.{call_at, unlocking_at, undoing_at, place_at, known_at, placing_at, tested_at, locking_at, staging_at, count_at, recovered_at, closed_at, passed_end, passed_then, passed_at, faulted_at, too_large_at, no_memory_at, done_at, Fits};
ghost use Rattle.commit_driver.specs.Places.{tails_for, files_of, entries_of, ways_of, IsPlace, IsCounted};
ghost use Rattle.commit_driver.specs.Answers.{Finds, PassedSo, Looks, WritesGo, MakesFiles, Takes, LoadedSo, Answered, IsAnswer, IsAfter, closing_at, judged_at};

use crate::decision::{decided, ends_for, let_all_go, own_way, tails_for};
use crate::judge::{Trouble, judge};
use crate::{End, Passed, Place, Plan, Recovered, Step, Then};
use commit_machine::staged_name;
use commit_record::{Entry, Phase, Record, RecordError, Way, read, way_of};
use folder_change::Change;
use mail_text::{Items, Memory, Text};
use mbox_scan::Folder;
use std::alloc::Global;

/// What a call answers.
#[derive(Drop)]
pub enum Reply {
    /// It went so: done or not, taken or not.
    Done(bool),
    /// This file was loaded.
    Loaded(Option<Text>),
    /// A file of this number of bytes is too large to load.
    TooLarge(u64),
    /// A load ran out of memory.
    NoMemory,
    /// The call failed.
    Fault,
}

fn unlocking(at: usize, end: usize, then: Then) -> Step
    ensures { result ≡ unlocking_at at end then }
{
    if at < end {
        Step::Unlocking(at, end, then)
    } else {
        Step::Erasing(then)
    }
}

fn undoing(at: usize, end: usize, locks: usize, then: Then) -> Step
    ensures { result ≡ undoing_at at end locks then }
{
    if at < end {
        Step::Undoing(at, end, locks, then)
    } else {
        unlocking(0, locks, then)
    }
}

fn locking(at: usize, files: usize) -> Step
    ensures { result ≡ locking_at at files }
{
    if at < files {
        Step::Locking(at)
    } else {
        Step::Loading(0)
    }
}

fn staging(at: usize, files: usize) -> Step
    ensures { result ≡ staging_at at files }
{
    if at < files {
        Step::Staging(at)
    } else {
        Step::Deciding
    }
}

// A record was decided.
fn is_decided(value: &Record) -> bool
    ensures { result ≡ is_go value.now }
{
    match value.phase {
        Phase::Go => true,
        Phase::Prepare => false,
    }
}

// How many names there are to do: of `files` files, or of `entries` entries that were found.
fn count(files: usize, entries: usize, then: Then) -> usize
    ensures { result ≡ count_at files entries then }
{
    match then {
        Then::GoOn => entries,
        Then::Answer(_) => files,
    }
}

// How the file with this number comes to be: of an entry that was found, or of the plan.
fn way_at(place: &Place, at: usize, then: Then) -> Way
    requires { at < count_at (length place.now.files) (entries_of place.now) then }
    ensures { result ≡ ways_of place.now then at }
{
    match then {
        Then::GoOn => way_of(&place.found.entries.items()[at]),
        Then::Answer(_) => own_way(place.ways.items(), at),
    }
}

// The first step for an entry. A removal or an extension that was found may be done already, so it is looked for first.
fn place_one(way: Way, at: usize, then: Then) -> Step
    ensures { result ≡ place_at way at then }
{
    match way {
        Way::Replace => Step::Placing(at, then),
        Way::Remove => match then {
            Then::GoOn => Step::Testing(at),
            Then::Answer(_) => Step::Removing(at, then),
        },
        Way::Extend(_) => match then {
            Then::GoOn => Step::Testing(at),
            Then::Answer(_) => Step::Extending(at, then),
        },
    }
}

// The step for an entry whose staged file was looked for and stands; that of a file that is replaced isn't looked for.
fn place_known(way: Way, at: usize) -> Step
    ensures { result ≡ known_at way at }
{
    match way {
        Way::Replace | Way::Remove => Step::Removing(at, Then::GoOn),
        Way::Extend(_) => Step::Extending(at, Then::GoOn),
    }
}

// How many entries there are to do: those that were found, or the plan's files.
fn end_of(place: &Place, then: Then) -> usize
    ensures { result ≡ count_at (length place.now.files) (entries_of place.now) then }
{
    count(
        place.files.items().len(),
        place.found.entries.items().len(),
        then,
    )
}

// The first step for the entry with this number.
fn placing(place: &Place, at: usize, then: Then) -> Step
    ensures { result ≡ placing_at (ways_of place.now) at
        (count_at (length place.now.files) (entries_of place.now) then) then }
{
    let end = end_of(place, then);
    if at < end {
        place_one(way_at(place, at, then), at, then)
    } else {
        unlocking(0, end, then)
    }
}

// The first step for the entry after this one.
fn placing_next(place: &Place, at: usize, then: Then) -> Step
    requires { at < count_at (length place.now.files) (entries_of place.now) then }
    ensures { result ≡ placing_at (ways_of place.now) (at + 1)
        (count_at (length place.now.files) (entries_of place.now) then) then }
{
    let end = end_of(place, then);
    prove!(at < end);
    placing(place, at + 1, then)
}

// After the staged file of a removal or an extension was looked for.
fn tested(place: &Place, at: usize, stands: bool) -> Step
    requires { at < entries_of place.now }
    ensures { result ≡ tested_at (ways_of place.now) (entries_of place.now) at stands }
{
    if stands {
        place_known(way_at(place, at, Then::GoOn), at)
    } else {
        placing_next(place, at, Then::GoOn)
    }
}

// What a record that was found comes to.
fn recovered(found: &Record) -> Recovered
    ensures { result ≡ recovered_at found.now }
{
    let moment = found.moment;
    match found.phase {
        Phase::Go => Recovered::Finished { moment },
        Phase::Prepare => Recovered::RolledBack { moment },
    }
}

// After a record was closed: one that was found came to this.
fn closed(found: Recovered, then: Then) -> Step
    ensures { result ≡ closed_at found then }
{
    match then {
        Then::GoOn => Step::Clearing(found),
        Then::Answer(end) => Step::Releasing(end),
    }
}

fn passed_end(end: End) -> Passed
    ensures { result ≡ passed_end end }
{
    match end {
        End::Done => Passed::After,
        End::Failed(passed) => passed,
        _ => Passed::Before,
    }
}

fn passed_then(then: Then) -> Passed
    ensures { result ≡ passed_then then }
{
    match then {
        Then::GoOn => Passed::Before,
        Then::Answer(end) => passed_end(end),
    }
}

// Whether the decision was passed at a step where a call fails.
fn passed_at(step: Step) -> Passed
    ensures { result ≡ passed_at step }
{
    match step {
        Step::Placing(_, then)
        | Step::Removing(_, then)
        | Step::Extending(_, then)
        | Step::Discarding(_, then) => passed_then(then),
        Step::Unlocking(_, _, then) | Step::Erasing(then) => passed_then(then),
        Step::Releasing(end) | Step::Ended(end) => passed_end(end),
        Step::Checking => Passed::Unknown,
        _ => Passed::Before,
    }
}

fn after_fault(step: Step) -> Step
    ensures { result ≡ faulted_at step }
{
    match step {
        Step::Committing => Step::Checking,
        step => Step::Releasing(End::Failed(passed_at(step))),
    }
}

fn after_too_large(files: usize, step: Step, length: u64) -> Step
    ensures { result ≡ too_large_at files step length }
{
    match step {
        Step::Looking => Step::Releasing(End::RecordTooLarge(length)),
        Step::Testing(at) => Step::Releasing(End::StagedTooLarge(at, length)),
        Step::Loading(at) => unlocking(0, files, Then::Answer(End::TooLarge(at, length))),
        step => Step::Releasing(End::Failed(passed_at(step))),
    }
}

fn after_no_memory(files: usize, step: Step) -> Step
    ensures { result ≡ no_memory_at files step }
{
    match step {
        Step::Looking | Step::Testing(_) => Step::Releasing(End::NoMemory),
        Step::Loading(_) => unlocking(0, files, Then::Answer(End::NoMemory)),
        step => Step::Releasing(End::Failed(passed_at(step))),
    }
}

// The step after a call that is answered `did`, in a commit or not, of `files` files.
fn after_done(commits: bool, files: usize, place: &Place, did: bool) -> Step
    requires fits { Fits files (entries_of place.now) place.now.step }
    requires files { files ≡ length place.now.files }
    ensures { result ≡ done_at (ways_of place.now) commits files (entries_of place.now)
        (recovered_at place.now.found) place.now.step did }
{
    match place.step {
        Step::Undoing(at, end, locks, then) => undoing(at + 1, end, locks, then),
        Step::Placing(at, then) | Step::Discarding(at, then) => placing_next(place, at, then),
        Step::Removing(at, then) | Step::Extending(at, then) => Step::Discarding(at, then),
        Step::Unlocking(at, end, then) => unlocking(at + 1, end, then),
        Step::Erasing(then) => closed(recovered(&place.found), then),
        Step::Clearing(_) if commits => Step::Preparing,
        Step::Clearing(found) => Step::Releasing(End::Recovered(found)),
        Step::Preparing => Step::Publishing,
        Step::Publishing if did => locking(0, files),
        Step::Locking(at) if did => locking(at + 1, files),
        Step::Locking(at) => unlocking(0, at, Then::Answer(End::Busy(at))),
        Step::Staging(at) => staging(at + 1, files),
        Step::Deciding => Step::Committing,
        Step::Committing if did => placing(place, 0, Then::Answer(End::Done)),
        Step::Publishing | Step::Committing => Step::Releasing(End::NotARecord),
        Step::Releasing(end) => Step::Ended(end),
        step => Step::Releasing(End::Failed(passed_at(step))),
    }
}

/// The staged names of entries, in order. It fails only if memory runs out.
pub fn staged_names(alloc: Global, token: u64, entries: &[Entry]) -> Result<Items<Text>, Memory>
    ensures { IfOk result (λ s. s ≡ map (λ e. staged_name token e.name) entries.now) }
{
    let mut staged = Items::new(alloc);
    for entry in entries {
        let name = staged_name(alloc, token, entry.name.bytes())?;
        staged.push(name)?;
    }
    Ok(staged)
}

/// A record with the staged names of its entries.
#[derive(Drop)]
pub struct Found {
    pub value: Record,
    pub staged: Items<Text>,
}

// Reads the record that stands, and makes the staged names of its entries; or the end that follows if that can't be
// done.
fn read_found(alloc: Global, bytes: &[u8]) -> Result<Found, End>
    ensures { Finds bytes.now result }
{
    let value = match read(alloc, bytes) {
        Ok(value) => value,
        Err(RecordError::NotARecord) => return Err(End::NotARecord),
        Err(RecordError::Memory) => return Err(End::NoMemory),
    };
    match staged_names(alloc, value.token, value.entries.items()) {
        Ok(staged) => Ok(Found { value, staged }),
        Err(Memory) => Err(End::NoMemory),
    }
}

// The first step of closing the record that was found.
fn closing(place: &Place) -> Step
    ensures { result ≡ closing_at place.now.found }
{
    if is_decided(&place.found) {
        placing(place, 0, Then::GoOn)
    } else {
        let entries = place.found.entries.items().len();
        undoing(0, entries, entries, Then::GoOn)
    }
}

// What stands as the record was loaded.
fn look(alloc: Global, plan: &Plan, place: &mut Place, file: Option<Text>)
    ensures { Looks plan.now file place.old place.new }
{
    match file {
        None if plan.commits => place.step = Step::Preparing,
        None => place.step = Step::Clearing(Recovered::Nothing),
        Some(text) => match read_found(alloc, text.bytes()) {
            Ok(found) => {
                place.found = found.value;
                place.found_staged = found.staged;
                place.step = closing(place);
            }
            Err(end) => place.step = Step::Releasing(end),
        },
    }
}

/// The bytes of the first three lines of a decision's text, which tell phase and token.
const FRONT: usize = 47;

// Whether what stands as the record is that of the decision, by the front of the decision's text.
fn passed_by(go: &[u8], found: Option<&Text>) -> Passed
    ensures { PassedSo go.now (option_copied found.entry) result }
{
    let (front, _) = go.split_at(go.len().min(FRONT));
    match found {
        None => Passed::Before,
        Some(text) => {
            if text.bytes().starts_with(front) {
                Passed::After
            } else {
                Passed::Before
            }
        }
    }
}

// The step once all files are loaded and judged.
fn judged(files: usize, done: Result<(), Trouble>) -> Step
    ensures { result ≡ judged_at files done }
{
    let why = match done {
        Ok(()) => return staging(0, files),
        Err(Trouble::Changed { file, at }) => End::Changed(file, at),
        Err(Trouble::TooLarge { file, length }) => End::TooLarge(file, length),
        Err(Trouble::Memory) => End::NoMemory,
    };
    unlocking(0, files, Then::Answer(why))
}

// What becomes of the files is settled: the text of the decision is written.
fn write_decision(
    alloc: Global,
    plan: &Plan,
    place: &mut Place,
    tails: &[Option<u64>],
    judged: Result<(), Trouble>,
) -> Result<(), Trouble>
    requires files { length place.old.files ≡ files_of plan.now }
    requires tails { length tails.now ≡ files_of plan.now }
    requires valid { is_valid plan.now.value ≡ true }
    ensures { WritesGo plan.now tails.now judged place.old result place.new }
{
    match judged {
        Ok(()) => match decided(alloc, &plan.value, place.files.items(), tails) {
            Ok(decision) => {
                place.ways = decision.ways;
                place.go = decision.text;
                Ok(())
            }
            Err(Memory) => Err(Trouble::Memory),
        },
        Err(why) => Err(why),
    }
}

// Lets the bytes go that stay, and judges what the changes make of the files, and settles what becomes of them.
fn make_parts(
    alloc: Global,
    plan: &Plan,
    place: &mut Place,
    changes: &[Change],
    base: Option<&Folder>,
    stays: &[Option<u64>],
) -> Result<(), Trouble>
    requires files { length place.old.files ≡ files_of plan.now }
    requires valid { is_valid plan.now.value ≡ true }
    requires named { All (λ c. has (names_of plan.now.value) (name_of c) ≡ true) changes.now }
    requires based { All (λ c. IsTrue (is_rewrite c) → IsSome base) changes.now }
    requires stays { stays.now ≡ tails_for changes.now (names_of plan.now.value) place.old.files }
    ensures { MakesFiles plan.now changes.now (base_list (option_copied base.entry)) place.old result place.new }
{
    let entries = plan.value.entries.items();
    match ends_for(alloc, place.files.items(), stays) {
        Ok(ends) => {
            let_all_go(alloc, stays, &mut place.files);
            let result = judge(
                alloc,
                changes,
                base,
                entries,
                stays,
                ends.items(),
                &mut place.files,
            );
            write_decision(alloc, plan, place, stays, result)
        }
        Err(Memory) => Err(Trouble::Memory),
    }
}

// All files are loaded: what the changes make of them is judged, and what becomes of them settled.
fn make_files(
    alloc: Global,
    plan: &Plan,
    place: &mut Place,
    changes: &[Change],
    base: Option<&Folder>,
) -> Result<(), Trouble>
    requires files { length place.old.files ≡ files_of plan.now }
    requires valid { is_valid plan.now.value ≡ true }
    requires named { All (λ c. has (names_of plan.now.value) (name_of c) ≡ true) changes.now }
    requires based { All (λ c. IsTrue (is_rewrite c) → IsSome base) changes.now }
    ensures { MakesFiles plan.now changes.now (base_list (option_copied base.entry)) place.old result place.new }
{
    let entries = plan.value.entries.items();
    match tails_for(alloc, changes, entries, place.files.items()) {
        Ok(stays) => make_parts(alloc, plan, place, changes, base, stays.items()),
        Err(Memory) => Err(Trouble::Memory),
    }
}

// A file was loaded.
fn take(
    alloc: Global,
    plan: &Plan,
    place: &mut Place,
    at: usize,
    file: Option<Text>,
    changes: &[Change],
    base: Option<&Folder>,
)
    requires counted { IsCounted plan.now }
    requires place { IsPlace plan.now place.old }
    requires step { place.old.step ≡ Step.Loading at }
    requires named { All (λ c. has (names_of plan.now.value) (name_of c) ≡ true) changes.now }
    requires based { All (λ c. IsTrue (is_rewrite c) → IsSome base) changes.now }
    ensures { Takes plan.now at file changes.now (base_list (option_copied base.entry)) place.old place.new }
{
    let entries = plan.value.entries.items();
    *place.files.get_mut(at) = file;
    if at + 1 < entries.len() {
        place.step = Step::Loading(at + 1);
    } else {
        let result = make_files(alloc, plan, place, changes, base);
        place.step = judged(entries.len(), result);
    }
}

// What a load saw.
fn after_loaded(
    alloc: Global,
    plan: &Plan,
    place: &mut Place,
    file: Option<Text>,
    changes: &[Change],
    base: Option<&Folder>,
)
    requires counted { IsCounted plan.now }
    requires place { IsPlace plan.now place.old }
    requires named { All (λ c. has (names_of plan.now.value) (name_of c) ≡ true) changes.now }
    requires based { All (λ c. IsTrue (is_rewrite c) → IsSome base) changes.now }
    ensures { LoadedSo plan.now file changes.now (base_list (option_copied base.entry))
        place.old place.old.step place.new }
{
    match place.step {
        Step::Looking => look(alloc, plan, place, file),
        Step::Testing(at) => {
            let stands = file.is_some();
            place.seen = file;
            place.step = tested(place, at, stands);
        }
        Step::Loading(at) => take(alloc, plan, place, at, file, changes, base),
        Step::Checking => {
            let passed = passed_by(place.go.bytes(), file.as_ref());
            place.step = Step::Releasing(End::Failed(passed));
        }
        step => place.step = Step::Releasing(End::Failed(passed_at(step))),
    }
}

// The place after an answer, by numbers.
fn answer(
    alloc: Global,
    plan: &Plan,
    place: &mut Place,
    reply: Reply,
    changes: &[Change],
    base: Option<&Folder>,
)
    requires counted { IsCounted plan.now }
    requires place { IsPlace plan.now place.old }
    requires named { All (λ c. has (names_of plan.now.value) (name_of c) ≡ true) changes.now }
    requires based { All (λ c. IsTrue (is_rewrite c) → IsSome base) changes.now }
    ensures { Answered plan.now reply changes.now (base_list (option_copied base.entry)) place.old place.new }
{
    let files = plan.value.entries.items().len();
    let step = place.step;
    match reply {
        Reply::Done(did) => {
            place.step = after_done(plan.commits, files, place, did);
        }
        Reply::Loaded(file) => after_loaded(alloc, plan, place, file, changes, base),
        Reply::TooLarge(length) => place.step = after_too_large(files, step, length),
        Reply::NoMemory => place.step = after_no_memory(files, step),
        Reply::Fault => place.step = after_fault(step),
    }
}

/// The place after an answer, as the machine has it.
pub fn after(
    alloc: Global,
    plan: &Plan,
    place: &mut Place,
    reply: Reply,
    changes: &[Change],
    base: Option<&Folder>,
)
    requires counted { IsCounted plan.now }
    requires place { IsPlace plan.now place.old }
    requires answers { IsAnswer (call_at place.old.step) reply }
    requires named { All (λ c. has (names_of plan.now.value) (name_of c) ≡ true) changes.now }
    requires based { All (λ c. IsTrue (is_rewrite c) → IsSome base) changes.now }
    ensures { IsAfter plan.now reply changes.now (base_list (option_copied base.entry)) place.old place.new }
{
    answer(alloc, plan, place, reply, changes, base);
}
