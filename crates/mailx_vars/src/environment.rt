ghost use Rattle.std.specs.Prelude.{◌≡◌, ◌≤◌, ◌++◌, IfOk, IfSome};
ghost use Rattle.std.specs.List.{find};
ghost use Rattle.std.specs.Option.{option_copied};
ghost use Rattle.std.specs.Str.{bytes_eq};
ghost use Rattle.mail_text.specs.Number.{number_of};
ghost use Rattle.mailx_vars.specs.Environment.{dead_in, editor_in, knows_user, lister_in, mail_in, mbox_in, or_default, places_of, rc_in, shell_in, variable, visual_in, width_of};

use crate::names::{is_short_name, is_user_name};
use mail_text::{Memory, Text, read_number};
use std::alloc::Global;

/// The fewest and the most columns of a terminal that count.
const FEWEST_COLUMNS: u64 = 40;

const MOST_COLUMNS: u64 = 1_000;

/// The columns if the environment gives no number that counts.
const USUAL_COLUMNS: usize = 80;

/// What a run takes from its environment: places of files, programs, and the width of the terminal.
#[derive(Debug, Drop)]
pub struct Places {
    /// The home folder, HOME.
    pub home: Text,
    /// The user, LOGNAME.
    pub user: Text,
    /// The system mailbox: MAIL, else the user's file in `/var/mail`.
    pub mail: Text,
    /// The start-up file: MAILRC, else `.mailrc` in the home folder.
    pub rc: Text,
    /// MBOX, else `mbox` in the home folder.
    pub mbox: Text,
    /// The file of dead letters: DEAD, else `dead.letter` in the home folder.
    pub dead: Text,
    /// The command that lists a folder: LISTER, else `ls`.
    pub lister: Text,
    /// The command interpreter: SHELL, else `/bin/sh`.
    pub shell: Text,
    /// The editor of `edit` and `~e`: EDITOR, else `ed`.
    pub editor: Text,
    /// The editor of `visual` and `~v`: VISUAL, else `vi`.
    pub visual: Text,
    /// The time zone, TZ, or nothing.
    pub tz: Text,
    /// The columns of the terminal: COLUMNS if it is a number from 40 to 1,000, else 80.
    pub width: usize,
}

// The first pair of a name.
pub(crate) fn first_pair<'a>(pairs: &'a [(Text, Text)], name: &[u8]) -> Option<&'a (Text, Text)>
    ensures { option_copied result ≡ find (λ pair. bytes_eq name.now pair.0) pairs.now }
{
    pairs.iter().find(|pair| name == pair.0.bytes())
}

// The value of a variable; one that is unset counts as empty.
fn variable<'a>(pairs: &'a [(Text, Text)], name: &[u8]) -> &'a [u8]
    ensures { result.now ≡ variable pairs.now name.now }
{
    match first_pair(pairs, name) {
        Some((_, value)) => value.bytes(),
        None => &[],
    }
}

// A copy of a value, or of what stands in its place if it is empty.
fn or_default(alloc: Global, value: &[u8], default: &[u8]) -> Result<Text, Memory>
    ensures { IfOk result (λ t. t ≡ or_default value.now default.now) }
{
    Text::copy(alloc, if value.is_empty() { default } else { value })
}

// A copy of a value, or if it is empty the two parts that stand in its place.
fn or_joined(alloc: Global, value: &[u8], front: &[u8], back: &[u8]) -> Result<Text, Memory>
    ensures { IfOk result (λ t. t ≡ or_default value.now (front.now ++ back.now)) }
{
    if !value.is_empty() {
        return Text::copy(alloc, value);
    }
    let mut joined = Text::copy(alloc, front)?;
    joined.push(back)?;
    Ok(joined)
}

// Copies of two texts.
fn copies(alloc: Global, first: &[u8], second: &[u8]) -> Result<(Text, Text), Memory>
    ensures { IfOk result (λ both. both ≡ (first.now, second.now)) }
{
    let first = Text::copy(alloc, first)?;
    let second = Text::copy(alloc, second)?;
    Ok((first, second))
}

// The system mailbox and the start-up file of a user with this home folder.
fn inboxes(
    alloc: Global,
    pairs: &[(Text, Text)],
    home: &[u8],
    user: &[u8],
) -> Result<(Text, Text), Memory>
    ensures { IfOk result (λ both. both ≡ (mail_in pairs.now user.now, rc_in pairs.now home.now)) }
{
    let mail = or_joined(alloc, variable(pairs, b"MAIL"), b"/var/mail/", user)?;
    let rc = or_joined(alloc, variable(pairs, b"MAILRC"), home, b"/.mailrc")?;
    Ok((mail, rc))
}

// The file for messages that were read, and that of dead letters.
fn outboxes(alloc: Global, pairs: &[(Text, Text)], home: &[u8]) -> Result<(Text, Text), Memory>
    ensures { IfOk result (λ both. both ≡ (mbox_in pairs.now home.now, dead_in pairs.now home.now)) }
{
    let mbox = or_joined(alloc, variable(pairs, b"MBOX"), home, b"/mbox")?;
    let dead = or_joined(alloc, variable(pairs, b"DEAD"), home, b"/dead.letter")?;
    Ok((mbox, dead))
}

// The command that lists a folder, and the command interpreter.
fn programs(alloc: Global, pairs: &[(Text, Text)]) -> Result<(Text, Text), Memory>
    ensures { IfOk result (λ both. both ≡ (lister_in pairs.now, shell_in pairs.now)) }
{
    let lister = or_default(alloc, variable(pairs, b"LISTER"), b"ls")?;
    let shell = or_default(alloc, variable(pairs, b"SHELL"), b"/bin/sh")?;
    Ok((lister, shell))
}

// The two editors.
fn editors(alloc: Global, pairs: &[(Text, Text)]) -> Result<(Text, Text), Memory>
    ensures { IfOk result (λ both. both ≡ (editor_in pairs.now, visual_in pairs.now)) }
{
    let editor = or_default(alloc, variable(pairs, b"EDITOR"), b"ed")?;
    let visual = or_default(alloc, variable(pairs, b"VISUAL"), b"vi")?;
    Ok((editor, visual))
}

fn width_of(columns: &[u8]) -> usize
    ensures width { result ≡ width_of (number_of columns.now) }
    ensures within { (40 ≤ result) × (result ≤ 1000) }
{
    match read_number(columns) {
        Some(n) if n >= FEWEST_COLUMNS && n <= MOST_COLUMNS => n as usize,
        _ => USUAL_COLUMNS,
    }
}

/// Whether the home folder and the user are set, to values that can be used: a HOME of 1 to 4,000 bytes, none of them
/// zero, and a LOGNAME of 1 to 4,000 bytes, none of them below 33 or 127. It takes no memory.
pub fn knows_user(pairs: &[(Text, Text)]) -> bool
    ensures { result ≡ knows_user pairs.now }
{
    is_short_name(variable(pairs, b"HOME")) && is_user_name(variable(pairs, b"LOGNAME"))
}

impl Places {
    /// The places that an environment names. Of several pairs of one name the first counts, and an empty value
    /// counts as unset. None exactly if `knows_user` is false.
    pub fn read(alloc: Global, pairs: &[(Text, Text)]) -> Result<Option<Places>, Memory>
        ensures places { IfOk result (λ found. found ≡ places_of pairs.now) }
        ensures width { IfOk result (λ found. IfSome found (λ places. (40 ≤ places.width) × (places.width ≤ 1000))) }
    {
        if !knows_user(pairs) {
            return Ok(None);
        }
        let home = variable(pairs, b"HOME");
        let user = variable(pairs, b"LOGNAME");
        let own = copies(alloc, home, user)?;
        let inboxes = inboxes(alloc, pairs, home, user)?;
        let outboxes = outboxes(alloc, pairs, home)?;
        let programs = programs(alloc, pairs)?;
        let editors = editors(alloc, pairs)?;
        let tz = Text::copy(alloc, variable(pairs, b"TZ"))?;
        Ok(Some(Places {
            home: own.0,
            user: own.1,
            mail: inboxes.0,
            rc: inboxes.1,
            mbox: outboxes.0,
            dead: outboxes.1,
            lister: programs.0,
            shell: programs.1,
            editor: editors.0,
            visual: editors.1,
            tz,
            width: width_of(variable(pairs, b"COLUMNS")),
        }))
    }
}
