// `sort`, `thread`, `unsort` and `unthread`.
ghost use Rattle.std.specs.Prelude.{◌≡◌, IfOk};
ghost use Rattle.command_desk.specs.Answers.{Means};
ghost use Rattle.command_desk.specs.Desks.{IsWithin};
ghost use Rattle.desk_commands.specs.Viewing.{kind_named, sort, thread, viewing, viewing_or_fault};

use command_desk::{Ask, Desk, Refusal, Steps, fault, unchanged};
use mail_text::{Items, Memory, Text};
use std::alloc::Global;
use thread_view::{Key, ViewKind};

// The kind of view that a word names.
fn kind_named(word: &[u8]) -> Option<ViewKind>
    ensures { result ≡ kind_named word.now }
{
    if word == b"date".as_slice() {
        Some(ViewKind::By(Key::Date))
    } else if word == b"from".as_slice() {
        Some(ViewKind::By(Key::From))
    } else if word == b"size".as_slice() {
        Some(ViewKind::By(Key::Size))
    } else if word == b"status".as_slice() {
        Some(ViewKind::By(Key::Status))
    } else if word == b"subject".as_slice() {
        Some(ViewKind::By(Key::Subject))
    } else if word == b"thread".as_slice() {
        Some(ViewKind::Threads)
    } else if word == b"to".as_slice() {
        Some(ViewKind::By(Key::To))
    } else {
        None
    }
}

// The messages are shown so.
fn viewing(alloc: Global, kind: ViewKind) -> Result<Steps, Memory>
    ensures { IfOk result (λ steps. steps ≡ viewing kind) }
{
    let mut asks = Items::new(alloc);
    asks.push(Ask::View { kind })?;
    Ok(Steps {
        asks,
        effects: unchanged(alloc),
    })
}

// The messages are shown as a word names it, if it does.
fn viewing_or_fault(alloc: Global, desk: &Desk, kind: Option<ViewKind>) -> Result<Steps, Refusal>
    ensures means { Means result (viewing_or_fault kind) }
    ensures within { IsWithin desk.now result }
{
    match kind {
        Some(kind) => Ok(viewing(alloc, kind)?),
        None => Err(fault(alloc, b"sort", b": bad arguments")),
    }
}

/// `sort`: the messages are shown by the key that its one word names (`date`, `from`, `size`, `status`, `subject` or
/// `to`), or with `thread` in threads. Refused are another word, and another number of words.
pub fn sort(alloc: Global, desk: &Desk, words: &[Text]) -> Result<Steps, Refusal>
    ensures means { Means result (sort words.now) }
    ensures within { IsWithin desk.now result }
{
    match words {
        [word] => viewing_or_fault(alloc, desk, kind_named(word.bytes())),
        _ => Err(fault(alloc, b"sort", b": bad arguments")),
    }
}

/// `thread`: the messages are shown in threads; `unsort`, `unthread`: by number.
pub fn thread(alloc: Global, desk: &Desk, name: &[u8]) -> Result<Steps, Refusal>
    ensures means { Means result (thread name.now) }
    ensures within { IsWithin desk.now result }
{
    let kind = if name == b"thread".as_slice() {
        ViewKind::Threads
    } else {
        ViewKind::Plain
    };
    Ok(viewing(alloc, kind)?)
}
