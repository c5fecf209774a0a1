ghost use Rattle.std.specs.Prelude.{◌≡◌, [], OnOk, OnErr};
ghost use Rattle.name_lists.specs.Names.{with_names};
ghost use Rattle.message_show.specs.FieldSets.{keeps};

use mail_text::{Memory, Text};
use name_lists::Names;
use std::alloc::Global;
use std::marker::Model;

/// Which fields of a header a shown message has. Names are compared with ASCII case ignored, and each is kept once,
/// as it was spelled first. Contracts see both lists of names.
#[derive(Drop)]
pub struct FieldSets {
    ignored: Names,
    retained: Names,
}

impl Model for FieldSets {
    ghost use Rattle.message_show.specs.FieldSets.{FieldNames};

    ghost Value = { FieldNames };

    ghost view = { λ s. record { ignored = s.ignored; retained = s.retained } };
}

impl FieldSets {
    /// No names, so that each field is kept. It takes no memory.
    pub fn new(alloc: Global) -> FieldSets
        ensures ignored { result.ignored ≡ [] }
        ensures retained { result.retained ≡ [] }
    {
        FieldSets {
            ignored: Names::new(alloc),
            retained: Names::new(alloc),
        }
    }

    /// Leaves out the fields of these names, if none is retained. If memory runs out, all is as before.
    pub fn ignore(&mut self, names: &[Text]) -> Result<(), Memory>
        ensures ok { OnOk result (self.new.ignored ≡ with_names self.old.ignored names.now) }
        ensures err { OnErr result (self.new.ignored ≡ self.old.ignored) }
        ensures retained { self.new.retained ≡ self.old.retained }
    {
        self.ignored.add(names)
    }

    /// Keeps the fields of these names, and of those named so before, alone. If memory runs out, all is as before.
    pub fn retain(&mut self, names: &[Text]) -> Result<(), Memory>
        ensures ok { OnOk result (self.new.retained ≡ with_names self.old.retained names.now) }
        ensures err { OnErr result (self.new.retained ≡ self.old.retained) }
        ensures ignored { self.new.ignored ≡ self.old.ignored }
    {
        self.retained.add(names)
    }

    /// Whether a field of this name is kept: if any name is retained, exactly if this one is; else exactly if it
    /// isn't ignored. It takes no memory.
    pub fn keeps(&self, name: &[u8]) -> bool
        ensures { result ≡ keeps self.now name.now }
    {
        if self.retained.names().is_empty() {
            !self.ignored.has(name)
        } else {
            self.retained.has(name)
        }
    }

    /// The ignored names in order of first naming.
    pub fn ignored(&self) -> &[Text]
        ensures { result.now ≡ self.now.ignored }
    {
        self.ignored.names()
    }

    /// The retained names in order of first naming.
    pub fn retained(&self) -> &[Text]
        ensures { result.now ≡ self.now.retained }
    {
        self.retained.names()
    }
}
