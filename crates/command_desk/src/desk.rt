use alias_groups::{Aliases, Own};
use mail_text::Text;
use mailx_macros::Macros;
use mailx_vars::{Places, Vars};
use message_show::FieldSets;
use message_state::Shown;
use quit_rules::{Batch, Open};
use rc_conditionals::{Conditions, Mode};
use thread_view::ViewKind;

/// The state of a session between two commands. Calls that take one ask for a valid one: what it shows is valid, its
/// rows are those of the folder's texts, marks aside, its marks are those of the folder, and a line has room for two
/// bytes.
#[derive(Drop)]
pub struct Desk {
    /// The open folder.
    pub folder: Open,
    /// What was gathered, which is done when the folder is left.
    pub gathered: Batch,
    /// The name of the file that was open before it; empty if none was.
    pub previous: Text,
    /// Its messages as they are shown.
    pub shown: Shown,
    /// How these are put in order.
    pub view: ViewKind,
    /// The variables.
    pub vars: Vars,
    /// The aliases.
    pub aliases: Aliases,
    /// The user's own names.
    pub own: Own,
    /// The names of fields that are left out when a message is printed, or shown alone.
    pub sets: FieldSets,
    /// The macros, and the definition that is under way.
    pub macros: Macros,
    /// The conditions that are open.
    pub conditions: Conditions,
    /// Whether the run sends a message or reads a folder, which the conditions `s` and `r` ask for.
    pub mode: Mode,
    /// Whether the input is a terminal, which the condition `t` asks for.
    pub terminal: bool,
    /// The page that was printed last, from 0.
    pub page: usize,
    /// Whether the current message is unwritten: it wasn't printed since it became current.
    pub unprinted: bool,
    /// The files and programs that the environment names, and the width of a line.
    pub places: Places,
}
