// The command line as one simple command of `clap`.
ghost use Rattle.std.specs.Prelude.{◌≡◌, IfOk, false, map};
ghost use Rattle.clap.specs.Words.{app_of, matches_of, rows_of, rule_of};
ghost use Rattle.clap.specs.Kinds.{FailsBy};
ghost use Rattle.clap.specs.Faults.{fault_of};
ghost use Rattle.clap.specs.Matches.{found_of};
ghost use Rattle.command_words.specs.Words.{flag_rule, valued_rule, bare, mailx};

use clap::{Arg, ArgAction, ArgMatches, Command, Error};
use std::alloc::{AllocError, Global};

fn flag<'a>(alloc: Global, id: &'a str, short: char) -> Arg<'a>
    ensures rule { rule_of result ≡ flag_rule id.entry.now short }
    ensures own { result.global ≡ false }
{
    Arg::new(alloc, id).short(short).action(ArgAction::SetTrue)
}

fn valued<'a>(alloc: Global, id: &'a str, short: char) -> Arg<'a>
    ensures rule { rule_of result ≡ valued_rule id.entry.now short }
    ensures own { result.global ≡ false }
{
    Arg::new(alloc, id).short(short).action(ArgAction::Set)
}

fn empty<'a>(alloc: Global) -> Command<'a>
    ensures { app_of result ≡ bare }
{
    Command::new(alloc, "mailx")
        .no_binary_name(true)
        .disable_help_flag(true)
        .disable_version_flag(true)
}

// The command `mailx`.
fn command<'a>(alloc: Global) -> Result<Command<'a>, AllocError>
    ensures { IfOk result (λ c. app_of c ≡ mailx) }
{
    let command = empty(alloc).arg(flag(alloc, "e", 'e'))?;
    let command = command.arg(flag(alloc, "H", 'H'))?;
    let command = command.arg(flag(alloc, "i", 'i'))?;
    let command = command.arg(flag(alloc, "N", 'N'))?;
    let command = command.arg(flag(alloc, "n", 'n'))?;
    let command = command.arg(flag(alloc, "F", 'F'))?;
    let command = command.arg(flag(alloc, "f", 'f'))?;
    let command = command.arg(valued(alloc, "u", 'u'))?;
    let command = command.arg(valued(alloc, "s", 's'))?;
    let command = command.arg(valued(alloc, "b", 'b'))?;
    let command = command.arg(valued(alloc, "c", 'c'))?;
    let long = Arg::new(alloc, "try").long("try").action(ArgAction::Set);
    let command = command.arg(long)?;
    let operand = Arg::new(alloc, "operand").action(ArgAction::Append);
    command.arg(operand)
}

// What the words hold.
pub(crate) fn read<'a>(alloc: Global, words: &'a [&'a str]) -> Result<ArgMatches<'a>, Error>
    ensures rows { IfOk result (λ m. rows_of (found_of m) ≡ matches_of mailx (map (λ s. s.now) words.entry.now)) }
    ensures kinds { FailsBy (fault_of mailx (map (λ s. s.now) words.entry.now)) result }
{
    let command = command(alloc)?;
    command.try_get_matches_from(words)
}
