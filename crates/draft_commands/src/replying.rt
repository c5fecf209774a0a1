// A message that is begun as an answer to messages of the folder.
ghost use Rattle.std.specs.Prelude.{◌≡◌, ◌<◌, ◌≤◌, not, All, IfOk, OnOk, length, codes};
ghost use Rattle.mailx_vars.specs.Settings.{is_set};
ghost use Rattle.draft_text.specs.declared.reply.ReplyHow.TheVariants as how;
ghost use Rattle.command_desk.specs.Answers.{Means};
ghost use Rattle.command_desk.specs.Desks.{IsDesk, IsMessageOf, IsWithin};
ghost use Rattle.draft_commands.specs.Replying.{from_writer, answer_one, has_nobody, with_answered, all_answered, answer_all, recorded_in, begun, answer_message, answer_messages, is_flipped, reply, reply_authors, followup, followup_authors};

use crate::mailing::{drafting, writer};
use command_desk::{
    Desk, Refusal, Steps, chosen, fault, last_message, message, named_after, single,
};
use draft_text::{Draft, ReplyError, ReplyHow, answered, reply_to};
use mail_text::{Items, Memory, Text};
use message_list::Purpose;
use name_lists::Names;
use std::alloc::Global;

// Whether a variable is set.
fn is_set(desk: &Desk, name: &[u8]) -> bool
    ensures { result ≡ is_set desk.now.vars name.now }
{
    desk.vars.get(name).is_some()
}

// The draft that answers message n.
fn answer_one(alloc: Global, how: ReplyHow, desk: &Desk, n: u32) -> Result<Draft, Refusal>
    requires desk { IsDesk desk.now }
    requires message { IsMessageOf desk.now.shown n }
    ensures { Means result (answer_one how desk.now n) }
{
    let metoo = is_set(desk, b"metoo");
    match reply_to(alloc, message(desk, n).text(), how, &desk.own, metoo) {
        Ok(draft) => Ok(draft),
        Err(ReplyError::NoAuthor) => Err(fault(alloc, b"", b"no author")),
        Err(ReplyError::Memory) => Err(Refusal::Memory),
    }
}

// Puts those who are answered in message n, and says whether there is somebody.
fn put_answered(alloc: Global, desk: &Desk, n: u32, names: &mut Names) -> Result<bool, Memory>
    requires desk { IsDesk desk.now }
    requires message { IsMessageOf desk.now.shown n }
    ensures somebody { IfOk result (λ somebody. somebody ≡ not (has_nobody desk.now n)) }
    ensures names { OnOk result (names.new ≡ with_answered desk.now names.old n) }
{
    let more = answered(alloc, message(desk, n).text())?;
    names.add(more.items())?;
    Ok(!more.items().is_empty())
}

// Those who are answered in these messages, each once; in each of them there is to be somebody.
fn all_answered(alloc: Global, desk: &Desk, numbers: &[u32]) -> Result<Names, Refusal>
    requires desk { IsDesk desk.now }
    requires messages { All (IsMessageOf desk.now.shown) numbers.now }
    ensures { Means result (all_answered desk.now numbers.now) }
{
    let mut names = Names::new(alloc);
    for n in numbers {
        if !put_answered(alloc, desk, *n, &mut names)? {
            return Err(fault(alloc, b"", b"no author"));
        }
    }
    Ok(names)
}

// The draft to those who are answered in these messages; the rest of it answers the first of them.
fn answer_all(alloc: Global, desk: &Desk, numbers: &[u32]) -> Result<Draft, Refusal>
    requires desk { IsDesk desk.now }
    requires some { 0 < length numbers.now }
    requires messages { All (IsMessageOf desk.now.shown) numbers.now }
    ensures { Means result (answer_all desk.now numbers.now) }
{
    let names = all_answered(alloc, desk, numbers)?;
    let draft = answer_one(alloc, ReplyHow::Authors, desk, numbers[0])?;
    Ok(Draft {
        to: Items::of(names.into_vec()),
        ..draft
    })
}

// The file in which the message is recorded, if it is: that of the author of message n.
fn recorded_in(alloc: Global, recorded: bool, desk: &Desk, n: u32) -> Result<Option<Text>, Refusal>
    ensures { Means result (recorded_in recorded desk.now n) }
{
    if recorded {
        Ok(Some(named_after(alloc, desk, n)?))
    } else {
        Ok(None)
    }
}

// A draft, with who writes it.
fn from_writer(alloc: Global, desk: &Desk, draft: Draft) -> Result<Draft, Memory>
    ensures { IfOk result (λ d. d ≡ from_writer desk.now draft) }
{
    let from = writer(alloc, desk)?;
    Ok(Draft { from, ..draft })
}

// Begins a draft that answers these messages, of which the last becomes current; it may be recorded in the file of the
// author of the first.
fn begun(
    alloc: Global,
    recorded: bool,
    desk: &Desk,
    numbers: &[u32],
    draft: Draft,
) -> Result<Steps, Refusal>
    requires some { 0 < length numbers.now }
    requires messages { All (IsMessageOf desk.now.shown) numbers.now }
    ensures means { Means result (begun recorded desk.now numbers.now draft) }
    ensures within { IsWithin desk.now result }
{
    let file = recorded_in(alloc, recorded, desk, numbers[0])?;
    let draft = from_writer(alloc, desk, draft)?;
    Ok(drafting(alloc, draft, file, Some(last_message(numbers)))?)
}

// Answers one message, to all, by the command of this name.
fn answer_message(
    alloc: Global,
    recorded: bool,
    name: &[u8],
    desk: &Desk,
    words: &[Text],
) -> Result<Steps, Refusal>
    requires { IsDesk desk.now }
    ensures means { Means result (answer_message recorded name.now desk.now words.now) }
    ensures within { IsWithin desk.now result }
{
    let numbers = chosen(alloc, words, desk, Purpose::Live)?;
    let n = single(alloc, name, numbers.items())?;
    let draft = answer_one(alloc, ReplyHow::All, desk, n)?;
    begun(alloc, recorded, desk, numbers.items(), draft)
}

// Answers messages, to the authors.
fn answer_messages(
    alloc: Global,
    recorded: bool,
    desk: &Desk,
    words: &[Text],
) -> Result<Steps, Refusal>
    requires { IsDesk desk.now }
    ensures means { Means result (answer_messages recorded desk.now words.now) }
    ensures within { IsWithin desk.now result }
{
    let numbers = chosen(alloc, words, desk, Purpose::Live)?;
    let draft = answer_all(alloc, desk, numbers.items())?;
    begun(alloc, recorded, desk, numbers.items(), draft)
}

// Whether the two kinds of answers have changed places.
fn is_flipped(desk: &Desk) -> bool
    ensures { result ≡ is_flipped desk.now }
{
    is_set(desk, b"flipr")
}

/// `reply`, `respond`, of which `name` is the one that was given: one message is answered, as `reply_to` says, to all,
/// from the value of the variable `from`; own names stay in if the variable `metoo` is set. If `flipr` is set it
/// does what `reply_authors` does. Refused are what `chosen` refuses, more than one message, and one that has
/// nobody to answer.
pub fn reply(alloc: Global, name: &[u8], desk: &Desk, words: &[Text]) -> Result<Steps, Refusal>
    requires { IsDesk desk.now }
    ensures means { Means result (reply name.now desk.now words.now) }
    ensures within { IsWithin desk.now result }
{
    if is_flipped(desk) {
        answer_messages(alloc, false, desk, words)
    } else {
        answer_message(alloc, false, name, desk, words)
    }
}

/// `Reply`, `Respond`, of which `name` is the one that was given: messages are answered to those who are answered in
/// each, and to nobody else; the subject and the ids answer the first. If `flipr` is set it does what `reply` does.
/// Refused are what `chosen` refuses, and messages in one of which nobody is answered.
pub fn reply_authors(
    alloc: Global,
    name: &[u8],
    desk: &Desk,
    words: &[Text],
) -> Result<Steps, Refusal>
    requires { IsDesk desk.now }
    ensures means { Means result (reply_authors name.now desk.now words.now) }
    ensures within { IsWithin desk.now result }
{
    if is_flipped(desk) {
        answer_message(alloc, false, name, desk, words)
    } else {
        answer_messages(alloc, false, desk, words)
    }
}

/// `followup`: as `reply` without `flipr`, and the message is recorded in the file that is named after the author of the
/// one that is answered. Refused are also the lack of an author, and a name that is empty or holds `/`.
pub fn followup(alloc: Global, desk: &Desk, words: &[Text]) -> Result<Steps, Refusal>
    requires { IsDesk desk.now }
    ensures means { Means result (followup desk.now words.now) }
    ensures within { IsWithin desk.now result }
{
    answer_message(alloc, true, b"followup", desk, words)
}

/// `Followup`: as `reply_authors` without `flipr`, and the message is recorded in the file that is named after the author
/// of the first one that is answered. Refused are also the lack of that author, and a name that is empty or holds `/`.
pub fn followup_authors(alloc: Global, desk: &Desk, words: &[Text]) -> Result<Steps, Refusal>
    requires { IsDesk desk.now }
    ensures means { Means result (followup_authors desk.now words.now) }
    ensures within { IsWithin desk.now result }
{
    answer_messages(alloc, true, desk, words)
}
