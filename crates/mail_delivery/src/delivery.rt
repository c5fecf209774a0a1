// A delivery.
ghost use Rattle.std.specs.Prelude.{◌≡◌, ◌++◌, ◌∷◌, [], ◌<◌, List, ℕ, Some, None, map, IsTrue, IfOk};
ghost use Rattle.std.specs.List.{list_any};
ghost use Rattle.std.specs.Str.{bytes_eq};
ghost use Rattle.commit_machine.specs.Records.{has};
ghost use Rattle.folder_change.specs.Changes.{name_of};
ghost use Rattle.folder_change.specs.declared.change.Change.TheVariants.{Add};
ghost use Rattle.folder_commit.specs.Safe.{MayCommit};
ghost use Rattle.mail_delivery.specs.Complete.{IsStill, IsComplete};
ghost use Rattle.mail_delivery.specs.Crash.{IsSafe};
ghost use Rattle.host_port.specs.declared.event.Event.{Event};
ghost use Rattle.host_port.specs.Disk.{disk};
ghost use Rattle.host_port.specs.Own.{own};
ghost use Rattle.host_port.specs.Calls.{Rose};
ghost use Rattle.host_port.specs.Ran.{Ran};
ghost use Rattle.mail_dates.specs.Clock.{IsPrintable};
ghost use Rattle.mail_text.specs.Lines.{with_feed};
ghost use Rattle.mbox_scan.specs.Mailbox.{trimmed};
ghost use Rattle.draft_text.specs.Texts.{opening_line};
ghost use Rattle.session_play.specs.Input.{left};
ghost use Rattle.session_play.specs.Committing.{wanted_of};
ghost use Rattle.session_play.specs.Play.{Play, Ask, Ret, Changes, Goes, Loop, Caused};
ghost use Rattle.mail_delivery.specs.Meaning.{additions, committing, delivering, nothing_taken, round};
ghost use Rattle.mail_delivery.specs.Runs.{IsRun, IsUsageOrMemory};
ghost use Rattle.mail_delivery.specs.Statuses.{IsAnswer, status_of};
ghost use Rattle.mail_delivery.specs.Steps.{OfLines, Put, TookBody, TookLine};
ghost use Rattle.mail_delivery.specs.Words.{actor, mailbox, reading};
ghost use Rattle.mail_delivery.specs.Delivered.{quoted_lines};

use crate::delivered::{message, push_line};
use crate::status::status_at;
use crate::words::{ACTOR, Request, mailbox, reading, variable};
use crate::{DeliverStatus, Environment};
use folder_change::{Change, change_name};
use host_port::Host;
use mail_dates::Moment;
use mail_text::{Items, Memory, Text};
use session_play::{Attempt, Committed, Reader, Stop, change, now};
use std::alloc::Global;

// Puts a line behind those of the body; there may be another.
fn put_line(body: &mut Vec<u8>, line: &[u8]) -> Result<bool, Stop>
    ensures { Put result body.old.items line.now body.new.items }
{
    match push_line(body, line) {
        Ok(()) => Ok(true),
        Err(Memory) => Err(Stop::Memory),
    }
}

// Takes a line behind those of the body. False at the end of the input.
fn take_line<H: Host>(
    alloc: Global,
    host: &mut H,
    reader: &mut Reader,
    body: &mut Vec<u8>,
) -> Result<bool, Stop>
    ensures ran { (request : Request) → (env : Environment) → Ran H.world host.old host.new
        (λ es. (lines : List (List ℕ)) → body.old.items ≡ quoted_lines lines
        → TookLine request env lines reader.old reader.new result body.new.items es) }
    ensures cause { Caused (H.world.counts host.old) (H.world.counts host.new) result }
    ensures progress { IfOk result (λ more. IsTrue more → left reader.new < left reader.old) }
{
    match reader.line(alloc, host) {
        Ok(Some(line)) => put_line(body, line.bytes()),
        Ok(None) => Ok(false),
        Err(cause) => Err(cause),
    }
}

// The lines of the input as a mailbox has them.
fn take_body<H: Host>(alloc: Global, host: &mut H) -> Result<Text, Stop>
    ensures ran { (request : Request) → (env : Environment) → Ran H.world host.old host.new
        (TookBody request env result) }
    ensures cause { Caused (H.world.counts host.old) (H.world.counts host.new) result }
{
    let mut reader = Reader::new(alloc);
    let mut body = Vec::new(alloc);
    'lines: loop {
        let more = take_line(alloc, host, &mut reader, &mut body)?;
        if !more {
            return Ok(Text::of(body));
        }
    }
}

// A text behind what the mailbox of a user holds.
fn addition(alloc: Global, text: Text, user: &[u8]) -> Result<Change, Memory>
    ensures { IfOk result (λ c. c ≡ Add (mailbox user.now) (text ∷ [])) }
{
    let mut texts = Items::new(alloc);
    texts.push(text)?;
    let name = mailbox(alloc, user)?;
    Ok(Change::Add { name, texts })
}

// A copy of one text behind what each user's mailbox holds.
fn copied_additions(alloc: Global, text: &[u8], users: &[Text]) -> Result<Items<Change>, Memory>
    ensures { IfOk result (λ changes. changes ≡ additions text.now users.now) }
{
    let mut changes = Items::new(alloc);
    for user in users {
        let copied = Text::copy(alloc, text)?;
        changes.push(addition(alloc, copied, user.bytes())?)?;
    }
    Ok(changes)
}

// One text behind what each user's mailbox holds; the last user gets the text itself.
fn additions(alloc: Global, text: Text, users: &[Text]) -> Result<Items<Change>, Memory>
    ensures { IfOk result (λ changes. changes ≡ additions text users.now) }
{
    let [front @ .., last] = users else {
        return Ok(Items::new(alloc));
    };
    let mut changes = copied_additions(alloc, text.bytes(), front)?;
    changes.push(addition(alloc, text, last.bytes())?)?;
    Ok(changes)
}

// What is committed of a body at a moment. The body is gone then, before the commit takes memory.
fn changes_of(
    alloc: Global,
    request: &Request,
    body: Text,
    m: Moment,
) -> Result<Items<Change>, Memory>
    requires { IsPrintable m }
    ensures { let text = trimmed (with_feed (opening_line request.now.sender m) ++ body) in
        IfOk result (λ changes. changes ≡ additions text request.now.users) }
{
    let text = message(alloc, request.sender.bytes(), body, m)?;
    additions(alloc, text, request.users.items())
}

// Whether a change has a file of this name.
fn some_has(changes: &[Change], name: &[u8]) -> bool
    ensures { result ≡ list_any (λ c. bytes_eq name.now (name_of c)) changes.now }
{
    changes.iter().any(|change| name == change_name(change))
}

// Whether this is the name of one of the changes' files.
fn is_changed(changes: &[Change], name: &[u8]) -> bool
    ensures { result ≡ has (map name_of changes.now) name.now }
{
    some_has(changes, name)
}

// The status that the answer to a commit of these changes calls for.
fn status_of(changes: &[Change], attempt: &Attempt) -> DeliverStatus
    ensures status { result ≡ status_of (map name_of changes.now) attempt.now }
    ensures plain { IsAnswer result }
{
    match attempt {
        Attempt::Made { answer } => match answer {
            Committed::Done => DeliverStatus::Done,
            Committed::NotARecord => DeliverStatus::BadRecord,
            Committed::TooLarge { name, length: _ } => {
                if is_changed(changes, name.bytes()) {
                    DeliverStatus::Refused
                } else {
                    DeliverStatus::BadRecord
                }
            }
            Committed::Busy { .. } | Committed::Changed { .. } | Committed::TooManyNames { .. } => {
                DeliverStatus::Refused
            }
        },
        Attempt::Misnamed { .. } => DeliverStatus::Refused,
    }
}

// Commits these changes.
fn commit_changes<H: Host>(
    alloc: Global,
    host: &mut H,
    token: u64,
    changes: &[Change],
) -> Result<DeliverStatus, Stop>
    requires { (text : List ℕ) × (users : List (List ℕ)) × (changes.now ≡ additions text users) }
    ensures ran { Ran H.world host.old host.new (λ es. Goes
        (Ask (Changes (wanted_of actor token changes.now [])) (λ answer. Ret (status_of (map name_of changes.now) answer)))
        es result) }
    ensures cause { Caused (H.world.counts host.old) (H.world.counts host.new) result }
    ensures plain { IfOk result IsAnswer }
{
    match change(alloc, host, ACTOR, token, changes, None) {
        Ok(attempt) => Ok(status_of(changes, &attempt)),
        Err(cause) => Err(cause),
    }
}

// Puts the body into the mailbox of each user.
fn put_at<H: Host>(
    alloc: Global,
    host: &mut H,
    request: &Request,
    env: &Environment,
    body: Text,
    m: Moment,
) -> Result<DeliverStatus, Stop>
    requires { IsPrintable m }
    ensures ran { Ran H.world host.old host.new
        (OfLines body (λ lines. committing request.now env.now lines m) result) }
    ensures cause { Caused (H.world.counts host.old) (H.world.counts host.new) result }
    ensures plain { IfOk result IsAnswer }
{
    match changes_of(alloc, request, body, m) {
        Ok(changes) => commit_changes(alloc, host, env.token, changes.items()),
        Err(Memory) => Err(Stop::Memory),
    }
}

// At the end of the input: asks for the time, and puts the body into the mailbox of each user.
fn put<H: Host>(
    alloc: Global,
    host: &mut H,
    request: &Request,
    env: &Environment,
    body: Text,
) -> Result<DeliverStatus, Stop>
    ensures ran { Ran H.world host.old host.new (OfLines body (delivering request.now env.now) result) }
    ensures cause { Caused (H.world.counts host.old) (H.world.counts host.new) result }
    ensures plain { IfOk result IsAnswer }
{
    match now(alloc, host, variable(env.pairs.items(), b"TZ")) {
        Ok(m) => put_at(alloc, host, request, env, body, m),
        Err(cause) => Err(cause),
    }
}

// A delivery, once its words are read.
fn do_request<H: Host>(
    alloc: Global,
    host: &mut H,
    request: &Request,
    env: &Environment,
) -> Result<DeliverStatus, Stop>
    ensures ran { Ran H.world host.old host.new
        (λ es. Loop (round request.now env.now) nothing_taken es result) }
    ensures cause { Caused (H.world.counts host.old) (H.world.counts host.new) result }
    ensures plain { IfOk result IsAnswer }
{
    match take_body(alloc, host) {
        Ok(body) => put(alloc, host, request, env, body),
        Err(cause) => Err(cause),
    }
}

/// Reads the words without the program's own name, takes a message from the input, and puts it into the mailbox of each
/// user that the words name, all in one commit. It prints nothing. The status' cause is the clause of its name.
pub fn deliver<H: Host>(
    alloc: Global,
    words: &[Text],
    env: &Environment,
    host: &mut H,
) -> DeliverStatus
    // The own events are those of the lines of the input, the time, and one commit for all users; the status is that of
    // their end, and the commit's answer comes to deliveries.
    ensures run { Ran H.world host.old host.new (IsRun (reading words.now env.now.pairs) env.now result) }
    // A fault is answered only if the host's count of it rose.
    ensures input_fault { result ≡ DeliverStatus.InputFault
        → Rose (H.world.counts host.old).ins (H.world.counts host.new).ins }
    ensures disk_fault { result ≡ DeliverStatus.DiskFault
        → Rose (H.world.counts host.old).disks (H.world.counts host.new).disks }
    // The usage is answered exactly when the words are refused, unless memory ran out.
    ensures usage_only { result ≡ DeliverStatus.Usage → reading words.now env.now.pairs ≡ None }
    ensures usage_always { reading words.now env.now.pairs ≡ None → IsUsageOrMemory result }
    // From a disk that is sound and carries nothing of the token, with lawful steps of others: if no fault of input or
    // disk is counted and nothing stands in the way of the delivery it is done, or memory ran out.
    ensures complete { (before es : List Event) → H.world.told host.old ≡ Some before
        → H.world.told host.new ≡ Some (before ++ es)
        → MayCommit actor env.now.token (disk (H.world.start host.old) before) es
        → IsStill (H.world.counts host.old) (H.world.counts host.new)
        → IsComplete (reading words.now env.now.pairs) env.now result (own es) }
    // Under the same premises: at every moment, and wherever the run stops, what recovery would make of the files has
    // all of the delivery or none of it; after 0 it has all, and after 2, 3, 7, 9 and 11 none.
    ensures safe { (before es : List Event) → H.world.told host.old ≡ Some before
        → H.world.told host.new ≡ Some (before ++ es)
        → MayCommit actor env.now.token (disk (H.world.start host.old) before) es
        → IsSafe (reading words.now env.now.pairs) env.now result (disk (H.world.start host.old) before) es }
{
    // the clause `safe` speaks of a token of 64 bits
    let _token = env.token;
    match reading(alloc, words, env.pairs.items()) {
        Ok(Some(request)) => status_at(do_request(alloc, host, &request, env)),
        Ok(None) => DeliverStatus::Usage,
        Err(Memory) => DeliverStatus::Memory,
    }
}
