// The names of an actor, and the staged name of a file.
ghost use Rattle.std.specs.Prelude.{◌≡◌, ◌++◌, ◌||◌, codes, IfOk};
ghost use Rattle.std.specs.Str.{bytes_eq};
ghost use Rattle.commit_machine.specs.Names.{record_name, new_name, right_name, staged_name, is_record_name};

use mail_text::{Memory, Text};
use std::alloc::Global;

/// The end of the name of a record.
const RECORD_END: &[u8] = b".commit";

/// The end of the name of a record that is being made.
const NEW_END: &[u8] = b".commit.new";

/// The end of the name of a right.
const RIGHT_END: &[u8] = b".right";

// A name with an end put to it.
fn with_end(alloc: Global, name: &[u8], end: &[u8]) -> Result<Text, Memory>
    ensures { IfOk result (λ t. t ≡ name.now ++ end.now) }
{
    let mut text = Text::copy(alloc, name)?;
    text.push(end)?;
    Ok(text)
}

/// The name of the actor's record.
#[tactic(auto, unfolding(crate::specs::Names::record_name))]
pub fn record_name(alloc: Global, actor: &[u8]) -> Result<Text, Memory>
    ensures { IfOk result (λ t. t ≡ record_name actor.now) }
{
    with_end(alloc, actor, RECORD_END)
}

/// The name where the actor's record is made before it takes its place.
#[tactic(auto, unfolding(crate::specs::Names::new_name))]
pub fn new_name(alloc: Global, actor: &[u8]) -> Result<Text, Memory>
    ensures { IfOk result (λ t. t ≡ new_name actor.now) }
{
    with_end(alloc, actor, NEW_END)
}

/// The name of the actor's right.
#[tactic(auto, unfolding(crate::specs::Names::right_name))]
pub fn right_name(alloc: Global, actor: &[u8]) -> Result<Text, Memory>
    ensures { IfOk result (λ t. t ≡ right_name actor.now) }
{
    with_end(alloc, actor, RIGHT_END)
}

/// The name where a file is made before it takes its place, for the commit of this token: the
/// file's name, `.mx` and the token in 16 lower case hexadecimal digits.
#[tactic(auto, unfolding(crate::specs::Names::staged_name))]
pub fn staged_name(alloc: Global, token: u64, name: &[u8]) -> Result<Text, Memory>
    ensures { IfOk result (λ t. t ≡ staged_name token name.now) }
{
    let digits = hex::encode(alloc, token.to_be_bytes())?;
    let mut text = with_end(alloc, name, b".mx")?;
    text.push(digits.as_bytes())?;
    Ok(text)
}

// Whether this is what a record's name has after the actor's.
fn is_record_end(end: &[u8]) -> bool
    ensures { result ≡ (bytes_eq end.now (codes ".commit") || bytes_eq end.now (codes ".commit.new")) }
{
    end == RECORD_END || end == NEW_END
}

/// Whether a name is that of the actor's record, or of a record that is being made. It takes no
/// memory.
pub fn is_record_name(actor: &[u8], name: &[u8]) -> bool
    ensures { result ≡ is_record_name actor.now name.now }
{
    match name.strip_prefix(actor) {
        Some(end) => is_record_end(end),
        None => false,
    }
}
