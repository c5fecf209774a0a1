//! The host's calls on the disk as calls of the machine of commit and recovery.
ghost use Rattle.std.specs.Prelude.{true, OnErr};
ghost use Rattle.host_port.specs.Calls.{Rose, LoadCause};
ghost use Rattle.host_port.specs.Names.{IsFileName};
ghost use Rattle.host_port.specs.Ran.{Ran};
ghost use Rattle.commit_machine.specs.Machine.{ToAsk, ToLoad, ToStage, ToPublish, ToExtend, ToErase, ToLock, ToSeize, ToRelease, Went};
ghost use Rattle.commit_driver.specs.Did.{Did, DidUnlock, told_reply, done_reply, load_reply};

use host_port::{DiskFault, Host, LoadAnswer, LoadError};
use std::alloc::Global;

/// Asks for the time.
pub fn ask<H: Host>(host: &mut H) -> i64
    ensures ran { Ran H.world host.old host.new (Did (ToAsk result) (Went true)) }
{
    host.now()
}

/// Loads a file.
pub fn load<H: Host>(alloc: Global, host: &mut H, name: &[u8]) -> Result<LoadAnswer, LoadError>
    requires { IsFileName name.now }
    ensures ran { Ran H.world host.old host.new (Did (ToLoad name.now) (load_reply result)) }
    ensures cause { LoadCause (H.world.counts host.old).disks (H.world.counts host.new).disks result }
{
    host.load(alloc, name)
}

/// Writes a whole file.
pub fn stage<H: Host>(host: &mut H, name: &[u8], bytes: &[u8]) -> Result<(), DiskFault>
    requires { IsFileName name.now }
    ensures ran { Ran H.world host.old host.new (Did (ToStage name.now bytes.now) (done_reply result)) }
    ensures cause { OnErr result (Rose (H.world.counts host.old).disks (H.world.counts host.new).disks) }
{
    host.stage(name, bytes)
}

/// Gives a file another name.
pub fn publish<H: Host>(host: &mut H, from: &[u8], to: &[u8]) -> Result<bool, DiskFault>
    requires source { IsFileName from.now }
    requires target { IsFileName to.now }
    ensures ran { Ran H.world host.old host.new (Did (ToPublish from.now to.now) (told_reply result)) }
    ensures cause { OnErr result (Rose (H.world.counts host.old).disks (H.world.counts host.new).disks) }
{
    host.publish(from, to)
}

/// Gives a file another tail.
pub fn extend<H: Host>(host: &mut H, name: &[u8], at: u64, bytes: &[u8]) -> Result<(), DiskFault>
    requires { IsFileName name.now }
    ensures ran { Ran H.world host.old host.new (Did (ToExtend name.now at bytes.now) (done_reply result)) }
    ensures cause { OnErr result (Rose (H.world.counts host.old).disks (H.world.counts host.new).disks) }
{
    host.extend(name, at, bytes)
}

/// Takes a file away.
pub fn erase<H: Host>(host: &mut H, name: &[u8]) -> Result<(), DiskFault>
    requires { IsFileName name.now }
    ensures ran { Ran H.world host.old host.new (Did (ToErase name.now) (done_reply result)) }
    ensures cause { OnErr result (Rose (H.world.counts host.old).disks (H.world.counts host.new).disks) }
{
    host.erase(name)
}

/// Puts a lock on a name.
pub fn lock<H: Host>(host: &mut H, name: &[u8], token: u64) -> Result<bool, DiskFault>
    requires { IsFileName name.now }
    ensures ran { Ran H.world host.old host.new (Did (ToLock name.now token) (told_reply result)) }
    ensures cause { OnErr result (Rose (H.world.counts host.old).disks (H.world.counts host.new).disks) }
{
    host.lock(name, token)
}

/// Takes the lock of this token on a name away.
pub fn unlock<H: Host>(host: &mut H, name: &[u8], token: u64) -> Result<(), DiskFault>
    requires { IsFileName name.now }
    ensures ran { Ran H.world host.old host.new (DidUnlock name.now token result) }
    ensures cause { OnErr result (Rose (H.world.counts host.old).disks (H.world.counts host.new).disks) }
{
    host.unlock(name, token)
}

/// Takes a right.
pub fn seize<H: Host>(host: &mut H, name: &[u8]) -> Result<bool, DiskFault>
    requires { IsFileName name.now }
    ensures ran { Ran H.world host.old host.new (Did (ToSeize name.now) (told_reply result)) }
    ensures cause { OnErr result (Rose (H.world.counts host.old).disks (H.world.counts host.new).disks) }
{
    host.seize(name)
}

/// Gives a right up.
pub fn release<H: Host>(host: &mut H, name: &[u8])
    requires { IsFileName name.now }
    ensures ran { Ran H.world host.old host.new (Did (ToRelease name.now) (Went true)) }
{
    host.release(name);
}
