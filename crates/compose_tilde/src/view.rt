use mailx_vars::{Places, Vars};
use mbox_scan::Folder;
use message_show::FieldSets;
use message_state::Shown;
use rc_conditionals::Mode;

/// What a line of a draft is read with. Calls that take such a value ask for a valid one: what is shown is valid, and
/// has as many rows as the folder has messages. No folder counts as an empty one.
#[derive(Drop)]
pub struct ComposeView<'a> {
    /// The variables.
    pub vars: &'a Vars,
    /// The files and programs that the environment names, its editors among them.
    pub places: &'a Places,
    /// The messages as they are shown.
    pub shown: &'a Shown,
    /// The open folder, if one is open.
    pub folder: Option<&'a Folder>,
    /// The names of fields that are left out when a message is printed, or shown alone.
    pub sets: &'a FieldSets,
    /// Whether the program sends a message or reads a folder.
    pub mode: Mode,
    /// Whether the input is a terminal.
    pub terminal: bool,
}
