// The tokens whose locks and staged files others leave alone.
ghost use Rattle.std.specs.Prelude.{◌≡◌, ◌++◌, true, ℕ, List, IfOk};
ghost use Rattle.std.specs.Bool.{Decides};
ghost use Rattle.std.specs.Option.{option_copied};
ghost use Rattle.host_memory.specs.Views.{lookup};
ghost use Rattle.commit_machine.specs.Names.{record_name, staged_name};
ghost use Rattle.commit_machine.specs.Records.{record_in};
ghost use Rattle.lawful_steps.specs.Steps.{guards, token_of};

use commit_machine::{record_name, staged_name};
use commit_record::{RecordError, read};
use mail_text::{Memory, Text};
use std::alloc::Global;

/// The token of a run, and that of the record that stands, if there is one.
#[derive(Clone, Copy)]
pub struct Tokens {
    pub token: u64,
    pub standing: Option<u64>,
}

/// The file of a name; of several pairs of it the first counts.
pub fn file<'a>(files: &'a [(Text, Text)], name: &[u8]) -> Option<&'a Text>
    ensures { option_copied result ≡ lookup files.now name.now }
{
    match files {
        [] => None,
        [(other, text), rest @ ..] => if name == other.bytes() {
            Some(text)
        } else {
            file(rest, name)
        },
    }
}

/// The owner of the lock on a name; of several pairs of it the first counts.
pub fn owner(locks: &[(Text, u64)], name: &[u8]) -> Option<u64>
    ensures { result ≡ lookup locks.now name.now }
{
    match locks {
        [] => None,
        [(other, token), rest @ ..] => if name == other.bytes() {
            Some(*token)
        } else {
            owner(rest, name)
        },
    }
}

/// The token of the record that a file holds.
pub fn token_in(alloc: Global, file: Option<&Text>) -> Result<Option<u64>, Memory>
    ensures { IfOk result (λ token. token ≡ token_of (record_in (option_copied file.entry))) }
{
    let Some(text) = file else {
        return Ok(None);
    };
    match read(alloc, text.bytes()) {
        Ok(record) => Ok(Some(record.token)),
        Err(RecordError::NotARecord) => Ok(None),
        Err(RecordError::Memory) => Err(Memory),
    }
}

/// The tokens that a run with this token guards on a disk with these files.
pub fn guarded(
    alloc: Global,
    actor: &[u8],
    token: u64,
    files: &[(Text, Text)],
) -> Result<Tokens, Memory>
    ensures own { IfOk result (λ g. g.token ≡ token) }
    ensures standing { IfOk result (λ g. g.standing ≡ token_of (record_in (lookup files.now (record_name actor.now)))) }
{
    let name = record_name(alloc, actor)?;
    let standing = token_in(alloc, file(files, name.bytes()))?;
    Ok(Tokens { token, standing })
}

/// Whether a token is one of these.
pub fn is_guarded(guarded: Tokens, token: u64) -> bool
    ensures { result ≡ guards guarded.token guarded.standing token }
{
    match guarded.standing {
        None => token == guarded.token,
        Some(other) => token == guarded.token || token == other,
    }
}

// Whether a name is a staged name of this token.
fn is_staged_of(alloc: Global, token: u64, name: &[u8]) -> Result<bool, Memory>
    ensures { IfOk result (λ b. Decides b ((m : List ℕ) × (name.now ≡ staged_name token m))) }
{
    let end = staged_name(alloc, token, b"")?;
    Ok(name.ends_with(end.bytes()))
}

/// Whether a name is a staged name of one of these tokens.
pub fn is_staged(alloc: Global, guarded: Tokens, name: &[u8]) -> Result<bool, Memory>
    ensures { IfOk result (λ b. Decides b
        ((u : ℕ) × (m : List ℕ) × (guards guarded.token guarded.standing u ≡ true) × (name.now ≡ staged_name u m))) }
{
    if is_staged_of(alloc, guarded.token, name)? {
        return Ok(true);
    }
    match guarded.standing {
        None => Ok(false),
        Some(other) => is_staged_of(alloc, other, name),
    }
}
