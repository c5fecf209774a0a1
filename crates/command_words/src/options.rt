ghost use Rattle.std.specs.Prelude.{◌≡◌, ◌==◌, map, length, option_map, IfOk, codes};
ghost use Rattle.std.specs.List.{list_any};
ghost use Rattle.clap.specs.Words.{first_of, rows_of};
ghost use Rattle.clap.specs.Matches.{found_of};
ghost use Rattle.command_words.specs.Words.{operands_of};
ghost use Rattle.command_words.specs.Options.{is_on, options_of};

use clap::ArgMatches;
use mail_text::{Items, Memory, Text};
use std::alloc::Global;

/// The flags, options and operands of a command line.
#[derive(Drop)]
pub struct Options {
    /// `-e`: whether there is mail is all that is asked.
    pub exists: bool,
    /// `-H`: the summary lines of all messages are printed.
    pub headers: bool,
    /// `-i`, which has no effect.
    pub ignores: bool,
    /// `-N`: nothing is printed of the folder at the start.
    pub quiet: bool,
    /// `-n`: the system's start-up file isn't read.
    pub no_system_file: bool,
    /// `-F`: a draft is recorded in the file named after its first recipient.
    pub named: bool,
    /// `-f`: a folder is opened, the operand or mbox.
    pub folder: bool,
    /// `-u`: the user whose mailbox is opened.
    pub user: Option<Text>,
    /// `-s`: the subject of the draft.
    pub subject: Option<Text>,
    /// `-b`: its blind recipients, names separated by blanks or commas.
    pub blind: Option<Text>,
    /// `-c`: the recipients of copies, names separated by blanks or commas.
    pub copies: Option<Text>,
    /// `--try`: how many messages are tried.
    pub tries: Option<Text>,
    /// The operands.
    pub operands: Items<Text>,
}

// Whether a flag is given.
fn is_on(matches: &ArgMatches<'_>, id: &str) -> bool
    ensures { result ≡ is_on id.now (rows_of (found_of matches.now)) }
{
    match matches.get_str(id) {
        Some(text) => text == "true",
        None => false,
    }
}

// The value of an option, if it is given.
fn value_of(alloc: Global, matches: &ArgMatches<'_>, id: &str) -> Result<Option<Text>, Memory>
    ensures { IfOk result (λ value. value ≡ first_of id.now (rows_of (found_of matches.now))) }
{
    match matches.get_str(id) {
        Some(text) => Ok(Some(Text::copy(alloc, text.as_bytes())?)),
        None => Ok(None),
    }
}

// Copies of texts.
fn copies(alloc: Global, texts: &[&str]) -> Result<Items<Text>, Memory>
    ensures { IfOk result (λ copies. copies ≡ map (λ text. text.now) texts.now) }
{
    let mut copies = Items::new(alloc);
    for text in texts {
        copies.push(Text::copy(alloc, text.as_bytes())?)?;
    }
    Ok(copies)
}

// The operands.
fn operands(alloc: Global, matches: &ArgMatches<'_>) -> Result<Items<Text>, Memory>
    ensures { IfOk result (λ all. all ≡ operands_of (rows_of (found_of matches.now))) }
{
    match matches.get_strs("operand") {
        Some(given) => copies(alloc, given),
        None => Ok(Items::new(alloc)),
    }
}

// What the command line has.
pub(crate) fn options_in(alloc: Global, matches: &ArgMatches<'_>) -> Result<Options, Memory>
    ensures { IfOk result (λ options. options ≡ options_of (rows_of (found_of matches.now))) }
{
    let user = value_of(alloc, matches, "u")?;
    let subject = value_of(alloc, matches, "s")?;
    let blind = value_of(alloc, matches, "b")?;
    let copies = value_of(alloc, matches, "c")?;
    let tries = value_of(alloc, matches, "try")?;
    let operands = operands(alloc, matches)?;
    Ok(Options {
        exists: is_on(matches, "e"),
        headers: is_on(matches, "H"),
        ignores: is_on(matches, "i"),
        quiet: is_on(matches, "N"),
        no_system_file: is_on(matches, "n"),
        named: is_on(matches, "F"),
        folder: is_on(matches, "f"),
        user,
        subject,
        blind,
        copies,
        tries,
        operands,
    })
}

// Whether an operand is empty.
pub(crate) fn has_empty(options: &Options) -> bool
    ensures { result ≡ list_any (λ word. length word == 0) options.now.operands }
{
    options
        .operands
        .items()
        .iter()
        .any(|word| word.bytes().is_empty())
}
