ghost use Rattle.std.specs.Prelude.{◌≡◌, ◌≤◌, ◌<◌, length, IfOk, OnErr};
ghost use Rattle.host_port.specs.Names.{IsFileName};
ghost use Rattle.host_port.specs.Calls.{Calls, World, NeverFall, Rose, Filled, Said, Loaded, LoadCause, Staged, Published, Extended, Erased, Locked, Unlocked, Seized, Released, ChildRan, ChildCause, Edited, EditCause, TimeTold};

use crate::{ChildAnswer, EditAnswer, LoadAnswer};
use mail_text::Text;
use std::alloc::Global;
use thiserror::Error;

/// Input could not be read.
#[derive(Clone, Copy, Debug, PartialEq, Eq, Error)]
#[error("input fault")]
pub struct InFault;

/// Output could not be written.
#[derive(Clone, Copy, Debug, PartialEq, Eq, Error)]
#[error("output fault")]
pub struct OutFault;

/// A file, a lock or a right could not be changed.
#[derive(Clone, Copy, Debug, PartialEq, Eq, Error)]
#[error("disk fault")]
pub struct DiskFault;

/// Why a load gave no file.
#[derive(Clone, Copy, Debug, PartialEq, Eq, Error)]
pub enum LoadError {
    #[error("cannot be read")]
    Failed,
    #[error("too large: {length} bytes")]
    TooLarge { length: u64 },
    #[error("out of memory")]
    Memory,
}

/// Why a child or an editor gave no answer.
#[derive(Clone, Copy, Debug, PartialEq, Eq, Error)]
pub enum ChildError {
    #[error("could not be run")]
    Failed,
    #[error("out of memory")]
    Memory,
}

/// The outside. One call is one atomic step; the steps of other programs stand between the calls.
///
/// While a host tells its trace, each call adds steps of others and then its own one event, and answers what the
/// disk at that step gives. A fault is answered only if the count of its kind has risen in that call.
pub trait Host {
    /// The disk before the first event, each event so far, while the host tells them, and how often each kind of
    /// call has failed.
    ghost world: { World Self };

    /// Takes input: puts bytes at the front of `buf` and says how many. None are the end of the input.
    fn fill(&mut self, buf: &mut [u8]) -> Result<usize, InFault>
        requires { 0 < length buf.old }
        ensures bound { IfOk result (λ n. n ≤ length buf.old) }
        ensures start { world.start self.new ≡ world.start self.old }
        ensures call { Calls world self.old self.new (Filled result buf.new) }
        ensures counts { NeverFall (world.counts self.old) (world.counts self.new) }
        ensures cause { OnErr result (Rose (world.counts self.old).ins (world.counts self.new).ins) };

    /// Writes output. After Ok all of it went out.
    fn say(&mut self, bytes: &[u8]) -> Result<(), OutFault>
        ensures start { world.start self.new ≡ world.start self.old }
        ensures call { Calls world self.old self.new (Said result bytes.now) }
        ensures counts { NeverFall (world.counts self.old) (world.counts self.new) }
        ensures cause { OnErr result (Rose (world.counts self.old).outs (world.counts self.new).outs) };

    /// Reads a whole file of at most 268,435,456 bytes, and says whether a lock on its name stands.
    fn load(&mut self, alloc: Global, name: &[u8]) -> Result<LoadAnswer, LoadError>
        requires { IsFileName name.now }
        ensures start { world.start self.new ≡ world.start self.old }
        ensures call { Calls world self.old self.new (Loaded name.now result) }
        ensures counts { NeverFall (world.counts self.old) (world.counts self.new) }
        ensures cause { LoadCause (world.counts self.old).disks (world.counts self.new).disks result };

    /// Writes a whole file, durably. After Ok it has exactly these bytes.
    fn stage(&mut self, name: &[u8], bytes: &[u8]) -> Result<(), DiskFault>
        requires { IsFileName name.now }
        ensures start { world.start self.new ≡ world.start self.old }
        ensures call { Calls world self.old self.new (Staged name.now bytes.now result) }
        ensures counts { NeverFall (world.counts self.old) (world.counts self.new) }
        ensures cause { OnErr result (Rose (world.counts self.old).disks (world.counts self.new).disks) };

    /// Gives a file another name, where it takes the place of what stood there. False exactly if the file is absent,
    /// and then nothing changes.
    fn publish(&mut self, from: &[u8], to: &[u8]) -> Result<bool, DiskFault>
        requires source { IsFileName from.now }
        requires target { IsFileName to.now }
        ensures start { world.start self.new ≡ world.start self.old }
        ensures call { Calls world self.old self.new (Published from.now to.now result) }
        ensures counts { NeverFall (world.counts self.old) (world.counts self.new) }
        ensures cause { OnErr result (Rose (world.counts self.old).disks (world.counts self.new).disks) };

    /// Gives a file another tail, durably. After Ok it is its first `at` bytes and then these. An absent or shorter
    /// file is a fault, and stays as it was; after any other fault its first `at` bytes stand.
    fn extend(&mut self, name: &[u8], at: u64, bytes: &[u8]) -> Result<(), DiskFault>
        requires { IsFileName name.now }
        ensures start { world.start self.new ≡ world.start self.old }
        ensures call { Calls world self.old self.new (Extended name.now at bytes.now result) }
        ensures counts { NeverFall (world.counts self.old) (world.counts self.new) }
        ensures cause { OnErr result (Rose (world.counts self.old).disks (world.counts self.new).disks) };

    /// Takes a file away. An absent file is no fault.
    fn erase(&mut self, name: &[u8]) -> Result<(), DiskFault>
        requires { IsFileName name.now }
        ensures start { world.start self.new ≡ world.start self.old }
        ensures call { Calls world self.old self.new (Erased name.now result) }
        ensures counts { NeverFall (world.counts self.old) (world.counts self.new) }
        ensures cause { OnErr result (Rose (world.counts self.old).disks (world.counts self.new).disks) };

    /// Puts a lock on a name. True if it now stands with this token, false exactly if a lock stood.
    fn lock(&mut self, name: &[u8], token: u64) -> Result<bool, DiskFault>
        requires { IsFileName name.now }
        ensures start { world.start self.new ≡ world.start self.old }
        ensures call { Calls world self.old self.new (Locked name.now token result) }
        ensures counts { NeverFall (world.counts self.old) (world.counts self.new) }
        ensures cause { OnErr result (Rose (world.counts self.old).disks (world.counts self.new).disks) };

    /// Takes the lock on a name away if its owner is this token; else nothing changes.
    fn unlock(&mut self, name: &[u8], token: u64) -> Result<(), DiskFault>
        requires { IsFileName name.now }
        ensures start { world.start self.new ≡ world.start self.old }
        ensures call { Calls world self.old self.new (Unlocked name.now token result) }
        ensures counts { NeverFall (world.counts self.old) (world.counts self.new) }
        ensures cause { OnErr result (Rose (world.counts self.old).disks (world.counts self.new).disks) };

    /// Takes the right of a name. True if the caller has it now, false exactly if another has it. It ends
    /// when its holder stops.
    fn seize(&mut self, name: &[u8]) -> Result<bool, DiskFault>
        requires { IsFileName name.now }
        ensures start { world.start self.new ≡ world.start self.old }
        ensures call { Calls world self.old self.new (Seized name.now result) }
        ensures counts { NeverFall (world.counts self.old) (world.counts self.new) }
        ensures cause { OnErr result (Rose (world.counts self.old).disks (world.counts self.new).disks) };

    /// Gives the right of a name up. If the caller doesn't have it, nothing changes. It never fails.
    fn release(&mut self, name: &[u8])
        requires { IsFileName name.now }
        ensures start { world.start self.new ≡ world.start self.old }
        ensures call { Calls world self.old self.new (Released name.now) }
        ensures counts { NeverFall (world.counts self.old) (world.counts self.new) };

    /// Runs a program with these arguments and this input, waits for its end, and answers its status and its output.
    fn child(
        &mut self,
        alloc: Global,
        program: &[u8],
        args: &[Text],
        input: &[u8],
    ) -> Result<ChildAnswer, ChildError>
        ensures start { world.start self.new ≡ world.start self.old }
        ensures call { Calls world self.old self.new (ChildRan program.now args.now input.now result) }
        ensures counts { NeverFall (world.counts self.old) (world.counts self.new) }
        ensures cause { ChildCause (world.counts self.old).children (world.counts self.new).children result };

    /// Runs an editor on a text: puts the text into a file of this name, which is made anew, runs the shell with the
    /// command and that name, waits for its end, and takes the file back. Answers its status and the text that it left.
    /// The file is none of the disk's.
    fn edit(
        &mut self,
        alloc: Global,
        name: &[u8],
        shell: &[u8],
        command: &[u8],
        text: &[u8],
    ) -> Result<EditAnswer, ChildError>
        ensures start { world.start self.new ≡ world.start self.old }
        ensures call { Calls world self.old self.new (Edited name.now shell.now command.now text.now result) }
        ensures counts { NeverFall (world.counts self.old) (world.counts self.new) }
        ensures cause { EditCause (world.counts self.old).children (world.counts self.new).children result };

    /// The time: seconds since 1970-01-01 00:00:00 UTC. It never fails.
    fn now(&mut self) -> i64
        ensures start { world.start self.new ≡ world.start self.old }
        ensures call { Calls world self.old self.new (TimeTold result) }
        ensures counts { NeverFall (world.counts self.old) (world.counts self.new) };
}
