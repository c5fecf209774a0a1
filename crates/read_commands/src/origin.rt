// Where a line comes from, and the commands that may stand there.
ghost use Rattle.std.specs.Prelude.{◌≡◌, List, ℕ, None, IfErr, IfOk, OnOk};
ghost use Rattle.command_desk.specs.Answers.{Means, IsRefusedBy, next};
ghost use Rattle.command_desk.specs.declared.desk.Desk.{Desk};
ghost use Rattle.command_desk.specs.Desks.{IsDesk};
ghost use Rattle.command_desk.specs.Effects.{effect};
ghost use Rattle.desk_commands.specs.Defining.{definition_line};
ghost use Rattle.read_commands.specs.declared.origin.Origin.{Origin};
ghost use Rattle.read_commands.specs.Commands.{meaning};
ghost use Rattle.read_commands.specs.Origins.{is_of_startup, leaves_draft, line_of_origin, read_from, is_defining, turns_lines, passes_over, commanded, commanded_outside, AsksLittle};

use crate::dispatch::{command_line, name_of, perform};
use command_desk::{Desk, Refusal, Steps, effects_alone, fault, unchanged};
use desk_commands::definition_line;
use line_words::{Command, CommandLine, command_in};
use std::alloc::Global;

/// Where a line comes from.
#[derive(Clone, Copy, Debug, PartialEq, Eq)]
pub enum Origin {
    /// The input of the run, or a macro or a file that is run from it.
    Input,
    /// A start-up file, or a macro or a file that is run from one.
    Startup,
    /// A draft, by its escape `~:`.
    Draft,
}

// Whether a start-up file may hold the command.
fn is_of_startup(command: Command) -> bool
    ensures { result ≡ is_of_startup command }
{
    match command {
        Command::Alias
        | Command::Alternates
        | Command::Call
        | Command::Define
        | Command::Defines
        | Command::Undef
        | Command::Ignore
        | Command::Retain
        | Command::Echo
        | Command::Condition
        | Command::Set
        | Command::Unset
        | Command::Source
        | Command::Unalias
        | Command::Comment => true,
        _ => false,
    }
}

// Whether a draft can't give the command.
fn leaves_draft(command: Command) -> bool
    ensures { result ≡ leaves_draft command }
{
    match command {
        Command::Mail
        | Command::Reply
        | Command::ReplyAuthors
        | Command::Followup
        | Command::FollowupAuthors
        | Command::File
        | Command::Newmail
        | Command::Quit
        | Command::Exit
        | Command::Define
        | Command::Call
        | Command::Source
        | Command::Edit
        | Command::Visual => true,
        _ => false,
    }
}

// Refuses a command where it comes from.
fn allows(alloc: Global, origin: Origin, line: &CommandLine) -> Result<(), Refusal>
    ensures ok { OnOk result (line_of_origin origin line.now ≡ None) }
    ensures err { IfErr result (λ refusal. IsRefusedBy refusal (line_of_origin origin line.now)) }
{
    let name = name_of(line.word.bytes());
    match origin {
        Origin::Startup if !is_of_startup(line.command) => {
            Err(fault(alloc, name, b": not in a start-up file"))
        }
        Origin::Draft if leaves_draft(line.command) => {
            Err(fault(alloc, name, b": not while composing"))
        }
        _ => Ok(()),
    }
}

// Reads a line from somewhere. It is refused by its form, and else if it may not stand there: a start-up file holds
// settings, sets, aliases, macros, conditions, `source`, `echo` and comments alone, and a draft can't leave itself.
#[tactic(auto, using(command_desk::proofs::MeansLemmas::means_refused_by, command_desk::proofs::MeansLemmas::unless_none))]
fn read_command(alloc: Global, origin: Origin, line: &[u8]) -> Result<CommandLine, Refusal>
    ensures { Means result (read_from origin line.now) }
{
    let line = command_line(alloc, line)?;
    allows(alloc, origin, &line)?;
    Ok(line)
}

// Whether a line's word names `if`, `else` or `endif`, whatever stands behind it.
fn turns_lines(line: &[u8]) -> bool
    ensures { result ≡ turns_lines line.now }
{
    matches!(command_in(line), Some(Command::Condition))
}

// Whether a line is passed over: a condition that is open doesn't hold, and the line is none of `if`, `else` and
// `endif`. It may be no command.
fn passes_over(desk: &Desk, line: &[u8]) -> bool
    ensures { result ≡ passes_over desk.now line.now }
{
    !desk.conditions.live() && !turns_lines(line)
}

// What a line comes to that isn't passed over.
fn perform_read(alloc: Global, origin: Origin, line: &[u8], desk: &Desk) -> Result<Steps, Refusal>
    requires { IsDesk desk.now }
    ensures means { Means result (next (read_from origin line.now) (λ command. meaning command desk.now)) }
    ensures desk { IfOk result (λ steps. IsDesk (effect desk.now steps.effects)) }
{
    let line = read_command(alloc, origin, line)?;
    perform(alloc, &line, desk)
}

// What a line comes to if a definition is under way.
fn perform_defined(alloc: Global, line: &[u8], desk: &Desk) -> Result<Steps, Refusal>
    requires { IsDesk desk.now }
    ensures means { Means result (definition_line desk.now line.now) }
    ensures desk { IfOk result (λ steps. IsDesk (effect desk.now steps.effects)) }
{
    definition_line(alloc, desk, line)
}

// What a line comes to if no definition is under way.
fn perform_command(
    alloc: Global,
    origin: Origin,
    line: &[u8],
    desk: &Desk,
) -> Result<Steps, Refusal>
    requires { IsDesk desk.now }
    ensures means { Means result (commanded_outside origin desk.now line.now) }
    ensures desk { IfOk result (λ steps. IsDesk (effect desk.now steps.effects)) }
{
    if passes_over(desk, line) {
        Ok(effects_alone(alloc, unchanged(alloc)))
    } else {
        perform_read(alloc, origin, line, desk)
    }
}

/// Whether a definition is under way, so that a line is one of it, whatever it is. It takes no memory.
pub fn is_defining(desk: &Desk) -> bool
    ensures { result ≡ is_defining desk.now }
{
    desk.macros.open()
}

/// What a line from somewhere comes to: if a definition is under way it is one of it; else nothing, if it is
/// passed over; else it is read first, and then its command is performed.
pub fn perform_line(
    alloc: Global,
    origin: Origin,
    line: &[u8],
    desk: &Desk,
) -> Result<Steps, Refusal>
    requires { IsDesk desk.now }
    ensures means { Means result (commanded origin desk.now line.now) }
    ensures desk { IfOk result (λ steps. IsDesk (effect desk.now steps.effects)) }
{
    if is_defining(desk) {
        perform_defined(alloc, line, desk)
    } else {
        perform_command(alloc, origin, line, desk)
    }
}

/// A law: what a line of a start-up file comes to asks that bytes are printed, or for the lines of a file or of a
/// macro, and nothing else: it changes no file, opens no folder, begins no draft, runs no command and doesn't end the
/// run.
pub fn startup_lines_ask_little()
    ensures { (desk : Desk) → (line : List ℕ) → AsksLittle (commanded Origin.Startup desk line) }
{}
