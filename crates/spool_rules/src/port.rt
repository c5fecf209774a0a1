// The outside of a helper: the list of users, and the names of one folder.
ghost use Rattle.std.specs.Prelude.{◌≡◌, Option, List};
ghost use Rattle.spool_rules.specs.declared.port.Step.{Step};
ghost use Rattle.spool_rules.specs.declared.port.Step.TheVariants.{Users, Hold, Look, Make, Take, Link, Rename, Remove, Sync};
ghost use Rattle.spool_rules.specs.Told.{added};

use mail_text::Text;
use std::alloc::Global;

/// Why an operation ended before its end.
#[derive(Clone, Copy, Debug, PartialEq, Eq)]
pub enum Stop {
    /// The input could not be read.
    Input,
    /// A call on the list of users or on the folder failed.
    Disk,
    Memory,
    /// What stands at a name is no regular file of the caller's, or the lock isn't his by this token.
    Refused,
}

/// A regular file: whose it is, the nine bits of its mode, and which one it is.
#[derive(Clone, Copy, Debug, PartialEq, Eq)]
pub struct Found {
    pub owner: u32,
    pub mode: u32,
    pub device: u64,
    pub inode: u64,
}

/// What stands at a name.
#[derive(Clone, Copy, Debug, PartialEq, Eq)]
pub enum Seen {
    Nothing,
    File(Found),
    /// A link, a folder, a device, or what else is no regular file.
    Other,
}

/// One call of the outside, with what it was given and what it answered.
#[derive(Drop)]
pub enum Step {
    /// The list of users was read.
    Users {
        list: Result<Text, Stop>,
    },
    /// What stands at a name was taken hold of.
    Hold {
        name: Text,
        done: Result<(), Stop>,
    },
    /// It was looked at what stands at a name.
    Look {
        name: Text,
        seen: Result<Seen, Stop>,
    },
    /// A file of these bytes was made.
    Make {
        name: Text,
        bytes: Text,
        done: Result<(), Stop>,
    },
    /// A file of the bytes of the input was made, with this mode.
    Take {
        name: Text,
        mode: u32,
        done: Result<(), Stop>,
    },
    /// A file was given another name too: whether that name was free.
    Link {
        from: Text,
        to: Text,
        free: Result<bool, Stop>,
    },
    /// A file was given another name, in the place of what stood there.
    Rename {
        from: Text,
        to: Text,
        done: Result<(), Stop>,
    },
    /// A name was taken away.
    Remove {
        name: Text,
        done: Result<(), Stop>,
    },
    /// What was done in the folder was made to last.
    Sync {
        done: Result<(), Stop>,
    },
}

/// The list of users, and one folder. Each call but the first is about names in that folder, and follows no link that
/// stands at one.
pub trait Spool {
    /// The calls so far, while they are told.
    ghost told: { Self → Option (List Step) };

    /// Reads the list of users.
    fn users(&mut self, alloc: Global) -> Result<Text, Stop>
        ensures { told self.new ≡ added (told self.old) (Users result) };

    /// Takes hold of the caller's regular file at a name, if one stands there, to the end of the run: no other run has
    /// it meanwhile. From then on a look at that name shows no regular file of the caller's but that one. Refused if
    /// another run has it, and so is a look that would show another.
    fn hold(&mut self, name: &[u8]) -> Result<(), Stop>
        ensures { told self.new ≡ added (told self.old) (Hold name.now result) };

    /// What stands at a name.
    fn look(&mut self, name: &[u8]) -> Result<Seen, Stop>
        ensures { told self.new ≡ added (told self.old) (Look name.now result) };

    /// Makes a file of these bytes where nothing stands, takes hold of it, in the place of what was held, and syncs it.
    fn make(&mut self, name: &[u8], bytes: &[u8]) -> Result<(), Stop>
        ensures { told self.new ≡ added (told self.old) (Make name.now bytes.now result) };

    /// Makes a file of the bytes of the input where nothing stands, with this mode, and syncs it.
    fn take(&mut self, name: &[u8], mode: u32) -> Result<(), Stop>
        ensures { told self.new ≡ added (told self.old) (Take name.now mode result) };

    /// Gives a file another name too. False if something has that name.
    fn link(&mut self, from: &[u8], to: &[u8]) -> Result<bool, Stop>
        ensures { told self.new ≡ added (told self.old) (Link from.now to.now result) };

    /// Gives a file another name, in the place of what stood there.
    fn rename(&mut self, from: &[u8], to: &[u8]) -> Result<(), Stop>
        ensures { told self.new ≡ added (told self.old) (Rename from.now to.now result) };

    /// Takes a name away.
    fn remove(&mut self, name: &[u8]) -> Result<(), Stop>
        ensures { told self.new ≡ added (told self.old) (Remove name.now result) };

    /// Waits until the names in the folder have reached the device.
    fn sync(&mut self) -> Result<(), Stop>
        ensures { told self.new ≡ added (told self.old) (Sync result) };
}
