// What a line's command comes to.
ghost use Rattle.std.specs.Prelude.{◌≡◌, IfOk};
ghost use Rattle.line_words.specs.Line.{reading};
ghost use Rattle.command_desk.specs.Answers.{OrFault, Means};
ghost use Rattle.command_desk.specs.Desks.{IsDesk, IsWithin};
ghost use Rattle.command_desk.specs.Effects.{effect};
ghost use Rattle.folder_commands.specs.Saving.{IsFilingWithin};
ghost use Rattle.folder_commands.specs.declared.wanted.Filing.{Filing};
ghost use Rattle.read_commands.specs.Commands.{name_of, exit, filed, gathering, steps_by, steps_of, has_words_too_many, meaning, meaning_of, read_or_fault};

use child_commands::{edit, folders, pipe, shell, visual};
use command_desk::{Ask, Desk, Refusal, Steps, effects_alone, fault, gathers, unchanged};
use desk_commands::{
    alias, alternates, call, condition, define, defines, delete, delete_and_print, flagging, hold,
    ignore, mbox, retain, set, sort, source, thread, touch, unalias, undef, undelete, unset,
};
use draft_commands::{followup, followup_authors, mail, reply, reply_authors};
use folder_commands::{
    Filing, copy, copy_by_author, file, newmail, quit, save, save_by_author, write,
};
use line_words::{Command, CommandLine, LineError, read_line, whole_name};
use mail_text::{Items, Memory, Text};
use message_show::How;
use message_state::Act;
use show_commands::{echo, from, headers, help, number, print, print_following, scroll, size, top};
use std::alloc::Global;

// The whole name of the command that a word spells. A line without a word is one of `print`.
pub(crate) fn name_of(word: &[u8]) -> &'static [u8]
    ensures { result.now ≡ name_of word.now }
{
    match whole_name(word) {
        Some(name) => name,
        None => b"print",
    }
}

// `exit`, `xit`.
fn exit(alloc: Global, desk: &Desk) -> Result<Steps, Refusal>
    ensures means { Means result exit }
    ensures within { IsWithin desk.now result }
{
    let mut asks = Items::new(alloc);
    asks.push(Ask::Exit)?;
    Ok(Steps {
        asks,
        effects: unchanged(alloc),
    })
}

// Whether a command is given words and takes none.
fn has_words_too_many(line: &CommandLine) -> bool
    ensures { result ≡ has_words_too_many line.now }
{
    match line.command {
        Command::Defines
        | Command::Exit
        | Command::Folders
        | Command::Help
        | Command::Newmail
        | Command::Number
        | Command::Quit
        | Command::Scroll
        | Command::Thread => !line.words.items().is_empty(),
        _ => false,
    }
}

// A change of a file is committed, and only once that was done the reply is printed, and then the rest follows.
fn steps_of(alloc: Global, filing: Filing) -> Result<Steps, Memory>
    ensures { IfOk result (λ steps. steps ≡ steps_of filing) }
{
    let Filing { put, effects } = filing;
    let (change, reply) = put.into_change();
    let mut changes = Items::new(alloc);
    changes.push(change)?;
    let mut asks = Items::new(alloc);
    asks.push(Ask::Commit { changes })?;
    asks.push(Ask::Say(reply))?;
    Ok(Steps { asks, effects })
}

// A change of a file is gathered, unless its name can't be that of one more, and the rest follows.
fn gathering(alloc: Global, filing: Filing) -> Result<Steps, Memory>
    ensures { IfOk result (λ steps. steps ≡ gathering filing) }
{
    let Filing { put, effects } = filing;
    let name = Text::copy(alloc, put.name.bytes())?;
    let mut asks = Items::new(alloc);
    asks.push(Ask::Gather { name })?;
    Ok(Steps {
        asks,
        effects: gathers(effects, put),
    })
}

// What a change of a file comes to: with the variable `batch` it is gathered, and else committed.
fn steps_by(alloc: Global, desk: &Desk, filing: Filing) -> Result<Steps, Memory>
    ensures { IfOk result (λ steps. steps ≡ steps_by desk.now filing) }
{
    if desk.vars.flag(b"batch") {
        gathering(alloc, filing)
    } else {
        steps_of(alloc, filing)
    }
}

// What a command comes to that puts messages into a file.
fn filed(alloc: Global, desk: &Desk, filing: Result<Filing, Refusal>) -> Result<Steps, Refusal>
    requires { IsFilingWithin desk.now filing }
    ensures means { (meant : OrFault Filing) → Means filing meant → Means result (filed desk.now meant) }
    ensures within { IsWithin desk.now result }
{
    match filing {
        Ok(filing) => Ok(steps_by(alloc, desk, filing)?),
        Err(refusal) => Err(refusal),
    }
}

/// What the command of a line asks for and what it changes, or the one line that refuses it. A refused command
/// changes nothing. Nothing is printed or done yet: the asks are carried out in order, and then `Desk::settle` carries
/// out the changes.
pub fn perform(alloc: Global, line: &CommandLine, desk: &Desk) -> Result<Steps, Refusal>
    requires { IsDesk desk.now }
    ensures means { Means result (meaning line.now desk.now) }
    ensures desk { IfOk result (λ steps. IsDesk (effect desk.now steps.effects)) }
{
    if has_words_too_many(line) {
        Err(fault(alloc, name_of(line.word.bytes()), b": bad arguments"))
    } else {
        dispatch(alloc, line, desk)
    }
}

// What the command of a line comes to. Of the desk after it this promises only that its current message is one.
fn dispatch(alloc: Global, line: &CommandLine, desk: &Desk) -> Result<Steps, Refusal>
    requires desk { IsDesk desk.now }
    ensures means { Means result (meaning_of line.now.command line.now desk.now) }
    ensures within { IsWithin desk.now result }
{
    let words = line.words.items();
    match line.command {
        Command::Print => print(alloc, desk, words, How::Kept),
        Command::PrintAll => print(alloc, desk, words, How::All),
        Command::Top => top(alloc, desk, words),
        Command::From => from(alloc, desk, words),
        Command::Headers => headers(alloc, desk, words),
        Command::Next => print_following(alloc, desk, words),
        Command::Echo => echo(alloc, desk, words),
        Command::Size => size(alloc, desk, words),
        Command::Delete => delete(alloc, desk, words),
        Command::DeleteAndPrint => delete_and_print(alloc, desk, words),
        Command::Undelete => undelete(alloc, desk, words),
        Command::Hold => hold(alloc, desk, words),
        Command::Mbox => mbox(alloc, desk, words),
        Command::Touch => touch(alloc, desk, words),
        Command::Flag => flagging(alloc, Act::Flag, desk, words),
        Command::Unflag => flagging(alloc, Act::Unflag, desk, words),
        Command::Answered => flagging(alloc, Act::Answered, desk, words),
        Command::Unanswered => flagging(alloc, Act::Unanswered, desk, words),
        Command::Draft => flagging(alloc, Act::Draft, desk, words),
        Command::Undraft => flagging(alloc, Act::Undraft, desk, words),
        Command::Set => set(alloc, desk, words),
        Command::Unset => unset(alloc, desk, words),
        Command::Source => source(alloc, desk, words),
        Command::Condition => condition(alloc, desk, name_of(line.word.bytes()), words),
        Command::Alias => alias(alloc, desk, words),
        Command::Unalias => unalias(alloc, desk, words),
        Command::Alternates => alternates(alloc, desk, words),
        Command::Ignore => ignore(alloc, desk, words),
        Command::Retain => retain(alloc, desk, words),
        Command::Define => define(alloc, desk, words),
        Command::Call => call(alloc, desk, words),
        Command::Undef => undef(alloc, desk, words),
        Command::Defines => defines(alloc, desk),
        Command::Comment => Ok(effects_alone(alloc, unchanged(alloc))),
        Command::Number => number(alloc, desk),
        Command::Help => help(alloc, desk),
        Command::Copy => filed(alloc, desk, copy(alloc, desk, words)),
        Command::CopyByAuthor => filed(alloc, desk, copy_by_author(alloc, desk, words)),
        Command::Save => filed(alloc, desk, save(alloc, desk, words)),
        Command::SaveByAuthor => filed(alloc, desk, save_by_author(alloc, desk, words)),
        Command::Write => filed(alloc, desk, write(alloc, desk, words)),
        Command::File => file(alloc, name_of(line.word.bytes()), desk, words),
        Command::Mail => mail(alloc, desk, words),
        Command::Shell => shell(alloc, desk, line.rest.bytes()),
        Command::Pipe => pipe(alloc, name_of(line.word.bytes()), desk, words),
        Command::Folders => folders(alloc, desk),
        Command::Edit => edit(alloc, desk, words),
        Command::Visual => visual(alloc, desk, words),
        Command::Reply => reply(alloc, name_of(line.word.bytes()), desk, words),
        Command::ReplyAuthors => reply_authors(alloc, name_of(line.word.bytes()), desk, words),
        Command::Followup => followup(alloc, desk, words),
        Command::FollowupAuthors => followup_authors(alloc, desk, words),
        Command::Quit => Ok(quit(alloc, desk)?),
        Command::Exit => exit(alloc, desk),
        Command::Scroll => scroll(alloc, desk, line.word.bytes() == b"z-".as_slice()),
        Command::Sort => sort(alloc, desk, words),
        Command::Thread => thread(alloc, desk, name_of(line.word.bytes())),
        Command::Newmail => Ok(newmail(alloc)?),
    }
}

/// Reads a line, or refuses it by its form.
pub(crate) fn command_line(alloc: Global, line: &[u8]) -> Result<CommandLine, Refusal>
    ensures { Means result (read_or_fault (reading line.now)) }
{
    match read_line(alloc, line) {
        Ok(line) => Ok(line),
        Err(LineError::TooLong) => Err(fault(alloc, b"", b"line too long")),
        Err(LineError::Unknown { word }) => Err(fault(alloc, word.bytes(), b": unknown command")),
        Err(LineError::OpenQuote) => Err(fault(alloc, b"", b"open quote")),
        Err(LineError::Memory) => Err(Refusal::Memory),
    }
}
