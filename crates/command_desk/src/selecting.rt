// The messages that the words of a command select.
ghost use Rattle.std.specs.Prelude.{◌≡◌, ◌≤◌, ◌<◌, All, IfOk, length};
ghost use Rattle.mbox_scan.specs.declared.folder.TheConstants.{MOST_MESSAGES};
ghost use Rattle.command_desk.specs.Answers.{Means};
ghost use Rattle.command_desk.specs.Desks.{IsDesk, IsMessageOf};
ghost use Rattle.command_desk.specs.Selecting.{chosen, single, list_words, last_word, last_message, is_among, flag_of, IsListLine, IsListRefusal, AreFlags};

use crate::faults::{fault, line_of};
use crate::{Desk, Refusal};
use mail_text::{Items, Memory, Text};
use message_list::{ListError, Purpose};
use std::alloc::Global;
use std::marker::Model;

/// The line that refuses a list. It fails only if memory runs out, or ran out while the list was read.
pub fn list_line(alloc: Global, error: &ListError) -> Result<Text, Memory>
    ensures { IfOk result (IsListLine error.now) }
{
    match error {
        ListError::Syntax { word } => line_of(alloc, word.bytes(), b": bad message list"),
        ListError::NoSuch { word } => line_of(alloc, word.bytes(), b": no such message"),
        ListError::NoneMatch => line_of(alloc, b"", b"no applicable message"),
        ListError::Memory => Err(Memory),
    }
}

// The refusal of a list.
fn list_refusal(alloc: Global, error: &ListError) -> Refusal
    ensures { IsListRefusal error.now result }
{
    match list_line(alloc, error) {
        Ok(line) => Refusal::Fault { line },
        Err(Memory) => Refusal::Memory,
    }
}

/// The messages that the words select, in view order: one at least, and each is a message.
pub fn chosen(
    alloc: Global,
    words: &[Text],
    desk: &Desk,
    purpose: Purpose,
) -> Result<Items<u32>, Refusal>
    requires { IsDesk desk.now }
    ensures means { Means result (chosen purpose desk.now words.now) }
    ensures some { IfOk result (λ ns. 0 < length ns) }
    ensures messages { IfOk result (λ ns. All (IsMessageOf desk.now.shown) ns) }
{
    match message_list::chosen(alloc, words, &desk.shown, &desk.folder.folder, purpose) {
        Ok(numbers) => Ok(numbers),
        Err(error) => Err(list_refusal(alloc, &error)),
    }
}

/// The one message of a selection, for the command of this name.
pub fn single(alloc: Global, name: &[u8], numbers: &[u32]) -> Result<u32, Refusal>
    ensures means { Means result (single name.now numbers.now) }
{
    match numbers {
        [n] => Ok(*n),
        _ => Err(fault(alloc, name, b": bad arguments")),
    }
}

/// The words of a list in front of a file or a command: all but the last.
pub fn list_words(words: &[Text]) -> &[Text]
    ensures { result.now ≡ list_words words.now }
{
    let (list, _) = words.split_at(words.len().saturating_sub(1));
    list
}

/// The word of the file or the command: the last one.
pub fn last_word(words: &[Text]) -> &[u8]
    ensures { result.now ≡ last_word words.now }
{
    match words.get(words.len().saturating_sub(1)) {
        Some(word) => word.bytes(),
        None => &[],
    }
}

/// The last of some messages.
pub fn last_message(numbers: &[u32]) -> u32
    requires { 0 < length numbers.now }
    ensures { result ≡ last_message numbers.now }
{
    numbers[numbers.len() - 1]
}

// The most messages that are looked through one by one.
const FEW: usize = 16;

/// Messages, and if they are more than a few a flag for each number, which says whether it is one of them. Contracts
/// see them as the list of the messages.
#[derive(Drop)]
pub struct MessageSet<'a> {
    numbers: &'a [u32],
    flags: Option<Vec<bool>>,
}

impl<'a> Model for MessageSet<'a> {
    ghost use Rattle.std.specs.Prelude.{ℕ, List};
    ghost use Rattle.std.specs.Prelude.{IfSome};
    ghost use Rattle.command_desk.specs.Selecting.{AreFlags};

    ghost Value = { List ℕ };

    ghost view = { λ a. a.numbers.now };

    ghost invariant = { λ a. IfSome a.flags (λ flags. AreFlags flags.items a.numbers.now) };
}

// A flag for each number up to the count, which says whether it is one of these.
fn flags_of(alloc: Global, numbers: &[u32], count: usize) -> Result<Vec<bool>, Memory>
    requires few { count ≤ MOST_MESSAGES }
    requires within { All (λ n. n ≤ count) numbers.now }
    ensures { IfOk result (λ flags. AreFlags flags.items numbers.now) }
{
    let mut flags = vec![in alloc; false; count + 1]?;
    for n in numbers {
        flags[*n as usize] = true;
    }
    Ok(flags)
}

// The flag of a number, false if there is none.
fn flag_of(flags: &[bool], n: usize) -> bool
    ensures { result ≡ flag_of flags.now n }
{
    match flags.get(n) {
        Some(flag) => *flag,
        None => false,
    }
}

impl<'a> MessageSet<'a> {
    /// The messages of a list, if there are `count` messages in all.
    pub fn of(alloc: Global, numbers: &'a [u32], count: usize) -> Result<MessageSet<'a>, Memory>
        requires few { count ≤ MOST_MESSAGES }
        requires within { All (λ n. n ≤ count) numbers.now }
        ensures { IfOk result (λ among. among ≡ numbers.now) }
    {
        if numbers.len() <= FEW {
            return Ok(MessageSet {
                numbers,
                flags: None,
            });
        }
        let flags = flags_of(alloc, numbers, count)?;
        Ok(MessageSet {
            numbers,
            flags: Some(flags),
        })
    }

    /// Whether message n is among them.
    pub fn has(&self, n: u32) -> bool
        ensures { result ≡ is_among self.now n }
    {
        match &self.flags {
            Some(flags) => flag_of(flags, n as usize),
            None => self.numbers.iter().any(|m| *m == n),
        }
    }
}
