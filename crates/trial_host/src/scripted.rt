// A host in memory whose input is the lines of a trial.
ghost use Rattle.trial_host.specs.Trials.{IsScripted};

use host_memory::MemHost;
use host_port::{
    ChildAnswer, ChildError, DiskFault, EditAnswer, Host, InFault, LoadAnswer, LoadError, OutFault,
};
use mail_text::Text;
use std::alloc::Global;

/// Such a host, on which nothing fails and nobody else does anything.
#[derive(Drop)]
pub struct Scripted {
    memory: MemHost,
    ghost scripted: { IsScripted memory },
}

impl Scripted {
    ghost use Rattle.std.specs.Prelude.{◌≡◌};
    ghost use Rattle.trial_host.specs.Scripts.{memory_of};

    pub(crate) fn of(memory: MemHost) -> Scripted
        requires { IsScripted memory }
        ensures { memory_of result ≡ memory }
    {
        Scripted { memory }
    }

    /// The host in memory that it is.
    pub fn into_memory(self) -> MemHost
        ensures is { result ≡ memory_of self }
        ensures scripted { IsScripted result }
    {
        self.memory
    }
}

impl Host for Scripted {
    ghost use Rattle.trial_host.specs.Scripts.{scripted_world};

    ghost world = { scripted_world };

    fn fill(&mut self, buf: &mut [u8]) -> Result<usize, InFault> {
        self.memory.fill(buf)
    }

    fn say(&mut self, bytes: &[u8]) -> Result<(), OutFault> {
        self.memory.say(bytes)
    }

    fn load(&mut self, alloc: Global, name: &[u8]) -> Result<LoadAnswer, LoadError> {
        self.memory.load(alloc, name)
    }

    fn stage(&mut self, name: &[u8], bytes: &[u8]) -> Result<(), DiskFault> {
        self.memory.stage(name, bytes)
    }

    fn publish(&mut self, from: &[u8], to: &[u8]) -> Result<bool, DiskFault> {
        self.memory.publish(from, to)
    }

    fn extend(&mut self, name: &[u8], at: u64, bytes: &[u8]) -> Result<(), DiskFault> {
        self.memory.extend(name, at, bytes)
    }

    fn erase(&mut self, name: &[u8]) -> Result<(), DiskFault> {
        self.memory.erase(name)
    }

    fn lock(&mut self, name: &[u8], token: u64) -> Result<bool, DiskFault> {
        self.memory.lock(name, token)
    }

    fn unlock(&mut self, name: &[u8], token: u64) -> Result<(), DiskFault> {
        self.memory.unlock(name, token)
    }

    fn seize(&mut self, name: &[u8]) -> Result<bool, DiskFault> {
        self.memory.seize(name)
    }

    fn release(&mut self, name: &[u8]) {
        self.memory.release(name)
    }

    fn child(
        &mut self,
        alloc: Global,
        program: &[u8],
        args: &[Text],
        input: &[u8],
    ) -> Result<ChildAnswer, ChildError> {
        self.memory.child(alloc, program, args, input)
    }

    fn edit(
        &mut self,
        alloc: Global,
        name: &[u8],
        shell: &[u8],
        command: &[u8],
        text: &[u8],
    ) -> Result<EditAnswer, ChildError> {
        self.memory.edit(alloc, name, shell, command, text)
    }

    fn now(&mut self) -> i64 {
        self.memory.now()
    }
}
