ghost use Rattle.std.specs.Prelude.{◌≡◌, map, slice_get, take};
ghost use Rattle.std.specs.Option.{option_copied, option_map};
ghost use Rattle.line_words.specs.Spellings.{is_met, spellings, spelling_of, command_of, whole_name, names};
ghost use Rattle.line_words.specs.Table.{row_of};

use crate::Command;

// A spelling of a command: how many bytes of the whole name a word must have at least, and the whole name.
#[derive(Drop)]
pub(crate) struct Spelling {
    command: Command,
    least: usize,
    whole: &'static [u8],
}

// The spellings of all commands, in the order of the bytes of their whole names.
#[rattlefmt::skip]
static SPELLINGS: [Spelling; 77] = [
    Spelling { command: Command::Shell, least: 1, whole: b"!" },
    Spelling { command: Command::Comment, least: 1, whole: b"#" },
    Spelling { command: Command::Number, least: 1, whole: b"=" },
    Spelling { command: Command::Help, least: 1, whole: b"?" },
    Spelling { command: Command::CopyByAuthor, least: 1, whole: b"Copy" },
    Spelling { command: Command::FollowupAuthors, least: 1, whole: b"Followup" },
    Spelling { command: Command::PrintAll, least: 1, whole: b"Print" },
    Spelling { command: Command::ReplyAuthors, least: 1, whole: b"Reply" },
    Spelling { command: Command::ReplyAuthors, least: 1, whole: b"Respond" },
    Spelling { command: Command::SaveByAuthor, least: 1, whole: b"Save" },
    Spelling { command: Command::PrintAll, least: 1, whole: b"Type" },
    Spelling { command: Command::Alias, least: 1, whole: b"alias" },
    Spelling { command: Command::Alternates, least: 3, whole: b"alternates" },
    Spelling { command: Command::Answered, least: 8, whole: b"answered" },
    Spelling { command: Command::Call, least: 4, whole: b"call" },
    Spelling { command: Command::Copy, least: 1, whole: b"copy" },
    Spelling { command: Command::Define, least: 6, whole: b"define" },
    Spelling { command: Command::Defines, least: 7, whole: b"defines" },
    Spelling { command: Command::Delete, least: 1, whole: b"delete" },
    Spelling { command: Command::Ignore, least: 2, whole: b"discard" },
    Spelling { command: Command::DeleteAndPrint, least: 2, whole: b"dp" },
    Spelling { command: Command::Draft, least: 5, whole: b"draft" },
    Spelling { command: Command::DeleteAndPrint, least: 2, whole: b"dt" },
    Spelling { command: Command::Echo, least: 2, whole: b"echo" },
    Spelling { command: Command::Edit, least: 1, whole: b"edit" },
    Spelling { command: Command::Condition, least: 2, whole: b"else" },
    Spelling { command: Command::Condition, least: 2, whole: b"endif" },
    Spelling { command: Command::Exit, least: 2, whole: b"exit" },
    Spelling { command: Command::File, least: 2, whole: b"file" },
    Spelling { command: Command::Flag, least: 4, whole: b"flag" },
    Spelling { command: Command::File, least: 4, whole: b"folder" },
    Spelling { command: Command::Folders, least: 7, whole: b"folders" },
    Spelling { command: Command::Followup, least: 2, whole: b"followup" },
    Spelling { command: Command::From, least: 1, whole: b"from" },
    Spelling { command: Command::Alias, least: 1, whole: b"group" },
    Spelling { command: Command::Headers, least: 1, whole: b"headers" },
    Spelling { command: Command::Help, least: 3, whole: b"help" },
    Spelling { command: Command::Hold, least: 2, whole: b"hold" },
    Spelling { command: Command::Condition, least: 2, whole: b"if" },
    Spelling { command: Command::Ignore, least: 2, whole: b"ignore" },
    Spelling { command: Command::Help, least: 1, whole: b"list" },
    Spelling { command: Command::Mail, least: 1, whole: b"mail" },
    Spelling { command: Command::Mbox, least: 2, whole: b"mbox" },
    Spelling { command: Command::Newmail, least: 7, whole: b"newmail" },
    Spelling { command: Command::Next, least: 1, whole: b"next" },
    Spelling { command: Command::Pipe, least: 2, whole: b"pipe" },
    Spelling { command: Command::Hold, least: 3, whole: b"preserve" },
    Spelling { command: Command::Print, least: 1, whole: b"print" },
    Spelling { command: Command::Quit, least: 1, whole: b"quit" },
    Spelling { command: Command::Reply, least: 1, whole: b"reply" },
    Spelling { command: Command::Reply, least: 1, whole: b"respond" },
    Spelling { command: Command::Retain, least: 3, whole: b"retain" },
    Spelling { command: Command::Save, least: 1, whole: b"save" },
    Spelling { command: Command::Set, least: 2, whole: b"set" },
    Spelling { command: Command::Size, least: 2, whole: b"size" },
    Spelling { command: Command::Sort, least: 4, whole: b"sort" },
    Spelling { command: Command::Source, least: 2, whole: b"source" },
    Spelling { command: Command::Thread, least: 6, whole: b"thread" },
    Spelling { command: Command::Top, least: 2, whole: b"top" },
    Spelling { command: Command::Touch, least: 3, whole: b"touch" },
    Spelling { command: Command::Print, least: 1, whole: b"type" },
    Spelling { command: Command::Unalias, least: 3, whole: b"unalias" },
    Spelling { command: Command::Unanswered, least: 10, whole: b"unanswered" },
    Spelling { command: Command::Undef, least: 5, whole: b"undef" },
    Spelling { command: Command::Undelete, least: 1, whole: b"undelete" },
    Spelling { command: Command::Undraft, least: 7, whole: b"undraft" },
    Spelling { command: Command::Unflag, least: 6, whole: b"unflag" },
    Spelling { command: Command::Unset, least: 3, whole: b"unset" },
    Spelling { command: Command::Thread, least: 6, whole: b"unsort" },
    Spelling { command: Command::Thread, least: 8, whole: b"unthread" },
    Spelling { command: Command::Visual, least: 1, whole: b"visual" },
    Spelling { command: Command::Write, least: 1, whole: b"write" },
    Spelling { command: Command::Exit, least: 1, whole: b"xit" },
    Spelling { command: Command::Scroll, least: 1, whole: b"z" },
    Spelling { command: Command::Scroll, least: 2, whole: b"z+" },
    Spelling { command: Command::Scroll, least: 2, whole: b"z-" },
    Spelling { command: Command::Pipe, least: 1, whole: b"|" },
];

impl Spelling {
    // What a word must begin with at least.
    fn least(&self) -> &'static [u8]
        ensures { result.now ≡ take self.now.least self.now.whole.now }
    {
        match self.whole.get(..self.least) {
            Some(least) => least,
            None => self.whole,
        }
    }

    // Whether the word begins with the least of the spelling and is a front of its whole name.
    fn is_met(&self, word: &[u8]) -> bool
        ensures { result ≡ is_met word.now (row_of self.now) }
    {
        word.starts_with(self.least()) && self.whole.starts_with(word)
    }
}

// The rows of the table.
fn rows() -> &'static [Spelling]
    ensures { map row_of result.now ≡ spellings }
{
    &SPELLINGS
}

// The spelling that the word meets, the first of two.
fn spelling_of(word: &[u8]) -> Option<&'static Spelling>
    ensures { option_map (λ s. row_of s.now) result ≡ spelling_of word.now }
{
    rows().iter().find(|s| s.is_met(word))
}

/// The command that a word names: the word begins with what stands before the bracket in a spelling of the command,
/// and is a front of the whole name. No word names two commands.
pub fn command_of(word: &[u8]) -> Option<Command>
    ensures { result ≡ command_of word.now }
{
    match spelling_of(word) {
        Some(spelling) => Some(spelling.command),
        None => None,
    }
}

/// The whole name of the spelling that a word meets; of two spellings of one command the first in the order of bytes.
pub fn whole_name(word: &[u8]) -> Option<&'static [u8]>
    ensures { option_copied result ≡ whole_name word.now }
{
    match spelling_of(word) {
        Some(spelling) => Some(spelling.whole),
        None => None,
    }
}

/// The whole name at place `k`, from 0, of all whole names in the order of their bytes, each once; `None` exactly
/// past the last.
pub fn command_name(k: usize) -> Option<&'static [u8]>
    ensures { option_copied result ≡ slice_get names k }
{
    match rows().get(k) {
        Some(named) => Some(named.whole),
        None => None,
    }
}
