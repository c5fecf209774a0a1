// Definitions of macros, their lines, and macros that are removed.
ghost use Rattle.std.specs.Prelude.{◌≡◌};
ghost use Rattle.command_desk.specs.Answers.{IsRefusal, Means};
ghost use Rattle.command_desk.specs.Desks.{IsWithin};
ghost use Rattle.desk_commands.specs.Defining.{define, define_braced, define_named, definition_line, line_taken, macro_fault, undef};

use command_desk::{Desk, Naming, Refusal, Steps, copies, effects_alone, fault, renames};
use mail_text::Text;
use mailx_macros::MacroError;
use std::alloc::Global;

// Why the definition of a macro of this name isn't begun, or takes no line.
fn refusal(alloc: Global, name: &[u8], error: MacroError) -> Refusal
    ensures { IsRefusal result (macro_fault name.now error) }
{
    match error {
        MacroError::Nested => fault(alloc, b"", b"define inside define"),
        MacroError::Taken => fault(alloc, name, b": already defined"),
        MacroError::TooMany => fault(alloc, b"", b"too many macros"),
        MacroError::Memory => Refusal::Memory,
    }
}

// A definition of this name is begun, unless it is refused.
fn define_named(alloc: Global, desk: &Desk, name: &[u8]) -> Result<Steps, Refusal>
    ensures means { Means result (define_named desk.now name.now) }
    ensures within { IsWithin desk.now result }
{
    match desk.macros.refuses(name) {
        Some(error) => Err(refusal(alloc, name, error)),
        None => {
            let name = Text::copy(alloc, name)?;
            Ok(effects_alone(alloc, renames(alloc, Naming::Begin { name })))
        }
    }
}

// A definition of this name is begun, if the word after the name is `{`, unless it is refused.
fn define_braced(alloc: Global, desk: &Desk, name: &[u8], brace: &[u8]) -> Result<Steps, Refusal>
    ensures means { Means result (define_braced desk.now name.now brace.now) }
    ensures within { IsWithin desk.now result }
{
    if brace == b"{".as_slice() {
        define_named(alloc, desk, name)
    } else {
        Err(fault(alloc, b"define", b": bad arguments"))
    }
}

/// `define NAME {`: the definition of a macro is begun, whose lines are those that follow. Refused are other words, a
/// definition while another is under way, a name that is defined, and one macro more than 1,000.
pub fn define(alloc: Global, desk: &Desk, words: &[Text]) -> Result<Steps, Refusal>
    ensures means { Means result (define desk.now words.now) }
    ensures within { IsWithin desk.now result }
{
    match words {
        [name, brace] => define_braced(alloc, desk, name.bytes(), brace.bytes()),
        _ => Err(fault(alloc, b"define", b": bad arguments")),
    }
}

// The definition that is under way takes a line, unless it is refused.
fn line_taken(alloc: Global, desk: &Desk, line: &[u8]) -> Result<Steps, Refusal>
    ensures means { Means result (line_taken desk.now line.now) }
    ensures within { IsWithin desk.now result }
{
    match desk.macros.refuses_line(line)? {
        Some(error) => Err(refusal(alloc, b"", error)),
        None => {
            let line = Text::copy(alloc, line)?;
            Ok(effects_alone(alloc, renames(alloc, Naming::Line { line })))
        }
    }
}

/// A line of the definition that is under way: `}` alone ends it, another is a line of the macro. Refused are a line
/// that begins a definition, and one line more than 100,000 in all macros; the definition is under way still then.
pub fn definition_line(alloc: Global, desk: &Desk, line: &[u8]) -> Result<Steps, Refusal>
    ensures means { Means result (definition_line desk.now line.now) }
    ensures within { IsWithin desk.now result }
{
    if line == b"}".as_slice() {
        Ok(effects_alone(alloc, renames(alloc, Naming::End)))
    } else {
        line_taken(alloc, desk, line)
    }
}

/// `undef`: the macros of these names are removed. One that isn't defined is passed over; no name is refused.
pub fn undef(alloc: Global, desk: &Desk, words: &[Text]) -> Result<Steps, Refusal>
    ensures means { Means result (undef desk.now words.now) }
    ensures within { IsWithin desk.now result }
{
    if words.is_empty() {
        return Err(fault(alloc, b"undef", b": bad arguments"));
    }
    let names = copies(alloc, words)?;
    Ok(effects_alone(alloc, renames(alloc, Naming::Undef { names })))
}
