// Commands that name the fields which printed messages leave out or keep.
ghost use Rattle.std.specs.Prelude.{◌≡◌};
ghost use Rattle.command_desk.specs.Answers.{Means};
ghost use Rattle.command_desk.specs.Desks.{IsDesk, IsWithin};
ghost use Rattle.desk_commands.specs.Naming.{ignore, retain};

use command_desk::{
    Desk, Naming, Refusal, Steps, as_lines, copies, effects_alone, renames, says, unchanged,
};
use mail_text::Text;
use std::alloc::Global;

/// `ignore`, `discard`: fields of these names are left out too; without words the ignored ones are listed, one a line.
pub fn ignore(alloc: Global, desk: &Desk, words: &[Text]) -> Result<Steps, Refusal>
    requires { IsDesk desk.now }
    ensures means { Means result (ignore desk.now words.now) }
    ensures within { IsWithin desk.now result }
{
    if words.is_empty() {
        let out = as_lines(alloc, desk.sets.ignored())?;
        return says(alloc, out, unchanged(alloc));
    }
    let names = copies(alloc, words)?;
    Ok(effects_alone(alloc, renames(alloc, Naming::Ignore { names })))
}

/// `retain`: fields of these names are kept, and of those named so before, and no others; without words these are
/// listed, one a line.
pub fn retain(alloc: Global, desk: &Desk, words: &[Text]) -> Result<Steps, Refusal>
    requires { IsDesk desk.now }
    ensures means { Means result (retain desk.now words.now) }
    ensures within { IsWithin desk.now result }
{
    if words.is_empty() {
        let out = as_lines(alloc, desk.sets.retained())?;
        return says(alloc, out, unchanged(alloc));
    }
    let names = copies(alloc, words)?;
    Ok(effects_alone(alloc, renames(alloc, Naming::Retain { names })))
}
