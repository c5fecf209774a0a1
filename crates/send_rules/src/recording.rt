// The changes that record a draft, and that keep one which isn't sent.
ghost use Rattle.std.specs.Prelude.{◌≡◌, true, false, None, IfOk, slice_get, unwrap_or, []};
ghost use Rattle.command_desk.specs.Answers.{Means};
ghost use Rattle.send_rules.specs.Recording.{dead, located, recorded};

use command_desk::{Desk, Refusal, expanded, named_plainly};
use dead_letter::{dead_change, record_change};
use folder_change::Change;
use mail_text::{Memory, Text};
use message_list::before_at;
use std::alloc::Global;

// The first name.
fn first(names: &[Text]) -> &[u8]
    ensures { result.now ≡ unwrap_or (slice_get names.now 0) [] }
{
    match names {
        [name, ..] => name.bytes(),
        [] => b"",
    }
}

// A change, whose file is a word that stands for a name.
fn located(alloc: Global, desk: &Desk, change: Option<Change>) -> Result<Option<Change>, Refusal>
    ensures { Means result (located desk.now change) }
{
    match change {
        Some(Change::Add { name: word, texts }) => {
            let name = expanded(alloc, desk, word.bytes())?;
            Ok(Some(Change::Add { name, texts }))
        }
        other => Ok(other),
    }
}

// The change that records a text in the file that is named after the first recipient.
fn by_first(
    alloc: Global,
    desk: &Desk,
    text: &[u8],
    names: &[Text],
) -> Result<Option<Change>, Refusal>
    ensures { Means result (recorded desk.now text.now true None names.now) }
{
    let file = named_plainly(alloc, before_at(first(names)))?;
    Ok(record_change(alloc, text, file.bytes(), true, &desk.vars)?)
}

// The change that records a text in the file of the variable `record`, if that is set.
fn by_variable(alloc: Global, desk: &Desk, text: &[u8]) -> Result<Option<Change>, Refusal>
    ensures { Means result (recorded desk.now text.now false None []) }
{
    let change = record_change(alloc, text, b"", false, &desk.vars)?;
    located(alloc, desk, change)
}

/// The change that records a text: into the file of this name if there is one, with `by_recipient` (`-F`) into the
/// one that is named after the first of the names, what stands in it before the first `@`, and else into the file of
/// the variable `record`. None if that is unset. Refused is a name after a recipient that is empty or holds `/`
/// (`bad name`), and a value of `record` that stands for no file.
pub fn recorded(
    alloc: Global,
    desk: &Desk,
    text: &[u8],
    by_recipient: bool,
    file: &Option<Text>,
    names: &[Text],
) -> Result<Option<Change>, Refusal>
    ensures { Means result (recorded desk.now text.now by_recipient file.now names.now) }
{
    match file {
        Some(file) => Ok(record_change(alloc, text, file.bytes(), true, &desk.vars)?),
        None if by_recipient => by_first(alloc, desk, text, names),
        None => by_variable(alloc, desk, text),
    }
}

/// The change that puts a text into the file of dead letters; None if the variable `save` is unset.
pub fn dead(alloc: Global, desk: &Desk, text: &[u8]) -> Result<Option<Change>, Memory>
    ensures { IfOk result (λ change. change ≡ dead desk.now text.now) }
{
    dead_change(alloc, text, desk.places.dead.bytes(), &desk.vars)
}
