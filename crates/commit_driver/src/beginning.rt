// How a job begins: its right is taken.
ghost use Rattle.std.specs.Prelude.{◌≡◌};
ghost use Rattle.host_port.specs.Names.{IsFileName};
ghost use Rattle.host_port.specs.Ran.{Ran};
ghost use Rattle.commit_machine.specs.Jobs.{Job};
ghost use Rattle.commit_machine.specs.Names.{right_name};
ghost use Rattle.commit_driver.specs.Beginnings.{Begins, BegunCaused};

use crate::calls::{release, seize};
use host_port::{DiskFault, Host};

/// How the taking of a right went.
#[derive(Clone, Copy, Debug, PartialEq, Eq)]
pub enum Begun {
    /// The right is taken.
    Taken,
    /// Another has it, so the job has ended.
    Busy,
    /// The call failed, so the right was given up, and the job has ended.
    Failed,
}

/// Takes the right of a job, which is the machine's first call.
pub fn begin<H: Host>(host: &mut H, right: &[u8]) -> Begun
    requires { IsFileName right.now }
    ensures ran { (j : Job) → right.now ≡ right_name j.actor
        → Ran H.world host.old host.new (Begins j result) }
    ensures cause { BegunCaused (H.world.counts host.old).disks (H.world.counts host.new).disks result }
{
    match seize(host, right) {
        Ok(true) => Begun::Taken,
        Ok(false) => Begun::Busy,
        Err(DiskFault) => {
            release(host, right);
            Begun::Failed
        }
    }
}
