// The files that words name, and those that are named after an author.
ghost use Rattle.std.specs.Prelude.{◌≡◌, ◌==◌};
ghost use Rattle.std.specs.List.{list_any};
ghost use Rattle.command_desk.specs.Answers.{Means};
ghost use Rattle.command_desk.specs.FileNames.{author_of, expanded, is_plain, named_after, named_plainly};

use crate::{Desk, Refusal, fault};
use mail_text::Text;
use mailx_vars::{NameError, expand_name};
use message_list::author_local_part;
use std::alloc::Global;

/// The name of the file that a word stands for, or the line that says why it stands for none: `no previous file` or
/// `folder is not set`. The name may be one that no file can have.
pub fn expanded(alloc: Global, desk: &Desk, word: &[u8]) -> Result<Text, Refusal>
    ensures { Means result (expanded desk.now word.now) }
{
    match expand_name(alloc, word, &desk.places, &desk.vars, desk.previous.bytes()) {
        Ok(name) => Ok(name),
        Err(NameError::NoPrevious) => Err(fault(alloc, b"", b"no previous file")),
        Err(NameError::NoFolder) => Err(fault(alloc, b"", b"folder is not set")),
        Err(NameError::Memory) => Err(Refusal::Memory),
    }
}

// The bare address of the author of message n, numbered from 1, or empty.
fn author_of(desk: &Desk, n: u32) -> &[u8]
    ensures { result.now ≡ author_of desk.now n }
{
    match desk.shown.rows.items().get((n as usize).saturating_sub(1)) {
        Some(row) => row.texts.author(),
        None => &[],
    }
}

// Whether there is a `/`.
fn has_slash(name: &[u8]) -> bool
    ensures { result ≡ list_any (λ b. b == 47) name.now }
{
    name.iter().any(|b| *b == b'/')
}

// Whether this may be the name of a file in the folder where the run is: it isn't empty and holds no `/`.
fn is_plain(name: &[u8]) -> bool
    ensures { result ≡ is_plain name.now }
{
    !name.is_empty() && !has_slash(name)
}

/// A file's name that has to be a plain one: it isn't empty and holds no `/`; another is refused as a bad name.
pub fn named_plainly(alloc: Global, name: &[u8]) -> Result<Text, Refusal>
    ensures { Means result (named_plainly name.now) }
{
    if is_plain(name) {
        Ok(Text::copy(alloc, name)?)
    } else {
        Err(fault(alloc, name, b": bad name"))
    }
}

/// The name of the file that is named after the author of message n, numbered from 1: the local part, as it stands.
/// Refused are the lack of an author, and a name that is empty or holds `/`.
pub fn named_after(alloc: Global, desk: &Desk, n: u32) -> Result<Text, Refusal>
    ensures { Means result (named_after (author_of desk.now n)) }
{
    let author = author_of(desk, n);
    if author.is_empty() {
        return Err(fault(alloc, b"", b"no author"));
    }
    named_plainly(alloc, author_local_part(author))
}
