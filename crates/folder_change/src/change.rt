ghost use Rattle.std.specs.Prelude.{◌≡◌};
ghost use Rattle.folder_change.specs.Changes.{name_of};

use mail_text::{Items, Text};

/// A change of one file, which `name` names.
#[derive(Drop)]
pub enum Change {
    /// The texts of `list` take the place of those of a folder, and what was added to the file
    /// after these stays. A file that is empty then stands if `keep`, and else is removed.
    Rewrite {
        name: Text,
        list: Items<Text>,
        keep: bool,
    },
    /// The texts come after what the file holds.
    Add {
        name: Text,
        texts: Items<Text>,
    },
    /// The texts come before what the file holds.
    Front {
        name: Text,
        texts: Items<Text>,
    },
    /// The bytes come after what the file holds, as they are.
    AddRaw {
        name: Text,
        bytes: Text,
    },
}

/// The name of the file that a change is of.
pub fn change_name(change: &Change) -> &[u8]
    ensures { result.now ≡ name_of change.now }
{
    match change {
        Change::Rewrite { name, .. } => name.bytes(),
        Change::Add { name, .. } => name.bytes(),
        Change::Front { name, .. } => name.bytes(),
        Change::AddRaw { name, .. } => name.bytes(),
    }
}
