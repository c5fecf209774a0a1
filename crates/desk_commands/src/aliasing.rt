// Commands that define and remove aliases, and the one that names the user's own names.
ghost use Rattle.command_desk.specs.Answers.{Means};
ghost use Rattle.command_desk.specs.Desks.{IsDesk, IsWithin};
ghost use Rattle.desk_commands.specs.Naming.{alias, alternates, given, unalias};

use alias_groups::each_once;
use command_desk::{
    Desk, Naming, Refusal, Steps, as_lines, copies, effects_alone, fault, renames, says, unchanged,
};
use mail_text::{Memory, Text};
use std::alloc::Global;

// An alias gets these members, unless they are refused.
fn given(alloc: Global, desk: &Desk, name: &[u8], members: &[Text]) -> Result<Steps, Refusal>
    ensures means { Means result (given desk.now name.now members.now) }
    ensures within { IsWithin desk.now result }
{
    if desk.aliases.refuses(members).is_some() {
        return Err(fault(alloc, b"", b"too many aliases"));
    }
    let naming = Naming::Alias {
        name: Text::copy(alloc, name)?,
        members: copies(alloc, members)?,
    };
    Ok(effects_alone(alloc, renames(alloc, naming)))
}

/// `alias`, `group`: without words all aliases are listed, in order of first definition; with one word that alias is,
/// if it is defined; with more the first gets the others as further members. Members past 100,000 in all are
/// refused.
pub fn alias(alloc: Global, desk: &Desk, words: &[Text]) -> Result<Steps, Refusal>
    requires { IsDesk desk.now }
    ensures means { Means result (alias desk.now words.now) }
    ensures within { IsWithin desk.now result }
{
    match words {
        [] => says(alloc, desk.aliases.lines(alloc)?, unchanged(alloc)),
        [name] => says(
            alloc,
            desk.aliases.line(alloc, name.bytes())?,
            unchanged(alloc),
        ),
        [name, members @ ..] => given(alloc, desk, name.bytes(), members),
    }
}

/// `unalias`: the aliases of these names are removed. One that isn't defined is passed over.
pub fn unalias(alloc: Global, desk: &Desk, words: &[Text]) -> Result<Steps, Refusal>
    requires { IsDesk desk.now }
    ensures means { Means result (unalias desk.now words.now) }
    ensures within { IsWithin desk.now result }
{
    if words.is_empty() {
        return Err(fault(alloc, b"unalias", b": bad arguments"));
    }
    let names = copies(alloc, words)?;
    Ok(effects_alone(alloc, renames(alloc, Naming::Unalias { names })))
}

/// `alternates`: these are the user's other names, each once, ASCII case ignored; without words they are listed, one a
/// line.
pub fn alternates(alloc: Global, desk: &Desk, words: &[Text]) -> Result<Steps, Refusal>
    requires { IsDesk desk.now }
    ensures means { Means result (alternates desk.now words.now) }
    ensures within { IsWithin desk.now result }
{
    if words.is_empty() {
        let out = as_lines(alloc, desk.own.alternates.items())?;
        return says(alloc, out, unchanged(alloc));
    }
    let names = each_once(alloc, words)?;
    Ok(effects_alone(alloc, renames(alloc, Naming::Alternates { names })))
}
