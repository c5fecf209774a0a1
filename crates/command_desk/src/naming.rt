// Changes for which a desk takes memory: of what the user has named, which are aliases, own names, fields and macros, and
// of what was gathered.
ghost use Rattle.std.specs.Prelude.{◌≡◌, None, IsOk, OnOk, OnErr};
ghost use Rattle.mailx_macros.specs.Macros.{ended};
ghost use Rattle.command_desk.specs.Naming.{begun_unless_refused, renamed, with_line_unless_refused, without_these};

use crate::Desk;
use mail_text::{Items, Memory, Text};
use mailx_macros::{MacroError, Macros};
use quit_rules::BatchItem;

/// A change for which a desk takes memory: of what the user has named, which are aliases, the user's own names, the
/// fields that are left out or kept, and macros; or of what was gathered.
#[derive(Drop)]
pub enum Naming {
    /// An alias has more members; if they are refused all stays.
    Alias { name: Text, members: Items<Text> },
    /// The aliases of these names are removed.
    Unalias { names: Items<Text> },
    /// These are the user's other names.
    Alternates { names: Items<Text> },
    /// Fields of these names are ignored, beside those that were.
    Ignore { names: Items<Text> },
    /// Fields of these names are retained, beside those that were.
    Retain { names: Items<Text> },
    /// A definition of a macro is begun; if it is refused all stays.
    Begin { name: Text },
    /// The definition that is under way takes a line; if it is refused, or none is under way, all stays.
    Line { line: Text },
    /// The definition that is under way has ended, if one is.
    End,
    /// The macros of these names are removed; a name that isn't defined is passed over.
    Undef { names: Items<Text> },
    /// This is gathered, after what was.
    Gather { gathered: BatchItem },
}

// Begins a definition, if that isn't refused.
fn begin(macros: &mut Macros, name: &[u8]) -> Result<(), Memory>
    ensures ok { OnOk result (macros.new ≡ begun_unless_refused macros.old name.now) }
    ensures err { OnErr result (macros.new ≡ macros.old) }
{
    match macros.begin(name) {
        Ok(()) => Ok(()),
        Err(MacroError::Memory) => Err(Memory),
        Err(_) => Ok(()),
    }
}

// Puts a line at the end of the definition that is under way, if that isn't refused.
fn put_line(macros: &mut Macros, line: &[u8]) -> Result<(), Memory>
    ensures ok { OnOk result (macros.new ≡ with_line_unless_refused macros.old line.now) }
    ensures err { OnErr result (macros.new ≡ macros.old) }
{
    if !macros.open() {
        return Ok(());
    }
    match macros.line(line) {
        Ok(()) => Ok(()),
        Err(MacroError::Memory) => Err(Memory),
        Err(_) => Ok(()),
    }
}

// Ends the definition that is under way, if one is.
#[tactic(auto, using(crate::proofs::MacroLemmas::ended_none))]
fn end(macros: &mut Macros)
    ensures { macros.new ≡ ended macros.old }
{
    if macros.open() {
        macros.end();
    }
}

// Removes the macros of these names.
fn undef_all(macros: &mut Macros, names: &[Text])
    ensures { macros.new ≡ without_these macros.old names.now }
{
    for name in names {
        macros.undef(name.bytes());
    }
}

impl Desk {
    // Changes names, or what was gathered. If memory runs out, all is as before.
    fn take_naming(&mut self, naming: Naming) -> Result<(), Memory>
        ensures ok { OnOk result (self.new ≡ renamed self.old (Some naming)) }
        ensures err { OnErr result (self.new ≡ self.old) }
    {
        match naming {
            Naming::Alias { name, members } => self.aliases.give(name.bytes(), members.items()),
            Naming::Unalias { names } => {
                self.aliases.remove_all(names.items());
                Ok(())
            }
            Naming::Alternates { names } => {
                self.own.alternates = names;
                Ok(())
            }
            Naming::Ignore { names } => self.sets.ignore(names.items()),
            Naming::Retain { names } => self.sets.retain(names.items()),
            Naming::Begin { name } => begin(&mut self.macros, name.bytes()),
            Naming::Line { line } => put_line(&mut self.macros, line.bytes()),
            Naming::End => {
                end(&mut self.macros);
                Ok(())
            }
            Naming::Undef { names } => {
                undef_all(&mut self.macros, names.items());
                Ok(())
            }
            Naming::Gather { gathered } => self.gathered.push(gathered),
        }
    }

    // Changes names, or what was gathered, if they are changed. If memory runs out, all is as before.
    pub(crate) fn rename(&mut self, naming: Option<Naming>) -> Result<(), Memory>
        ensures ok { OnOk result (self.new ≡ renamed self.old naming) }
        ensures err { OnErr result (self.new ≡ self.old) }
        ensures unnamed { naming ≡ None → IsOk result }
    {
        match naming {
            Some(naming) => self.take_naming(naming),
            None => Ok(()),
        }
    }
}
