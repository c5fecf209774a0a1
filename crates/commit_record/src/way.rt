// How a file comes to be as an entry has it.
ghost use Rattle.std.specs.Prelude.{◌≡◌};
ghost use Rattle.commit_record.specs.Ways.{entry_for, way_of};

use crate::{Entry, EntryKind};
use mail_text::Text;

/// How a file comes to be as an entry has it, with all that the kind of the entry needs.
#[derive(Clone, Copy, Debug, PartialEq, Eq)]
pub enum Way {
    /// The staged file takes its place.
    Replace,
    /// It is taken away.
    Remove,
    /// What is staged stands behind this number of its bytes.
    Extend(u64),
}

/// The way of an entry.
pub fn way_of(entry: &Entry) -> Way
    ensures { result ≡ way_of entry.now }
{
    match entry.kind {
        EntryKind::Replace => Way::Replace,
        EntryKind::Remove => Way::Remove,
        EntryKind::Extend => Way::Extend(entry.at),
    }
}

/// The entry of a file that comes to be so.
pub fn entry_for(way: Way, name: Text) -> Entry
    ensures { result ≡ entry_for way name }
{
    let (kind, at) = match way {
        Way::Replace => (EntryKind::Replace, 0),
        Way::Remove => (EntryKind::Remove, 0),
        Way::Extend(at) => (EntryKind::Extend, at),
    };
    Entry { kind, at, name }
}
