// The host of the real machine. It tells no trace.
ghost use Rattle.std.specs.Prelude.{None, ◌≡◌, ◌<◌, ◌≤◌, length, OnErr};
ghost use Rattle.host_port.specs.Calls.{Rose};
ghost use Rattle.host_port.specs.Disk.{empty_disk};

use crate::children::run;
use crate::disk::Disk;
use crate::editors::edit;
use crate::reading::LOAD_LIMIT;
use crate::reasons::{FileError, Speaker, tell, tell_words};
use crate::standing::Standing;
use crate::streams::{put, take};
use host_port::{
    ChildAnswer, ChildError, DiskFault, EditAnswer, Host, InFault, LoadAnswer, LoadError, OutFault,
};
use mail_text::{Memory, Text};
use std::alloc::Global;
use std::fs::{File, Files};
use std::io::{Eprint, Input};
use std::process::Processes;
use std::time::{Clock, Duration};

/// The host of the real machine: its standard input and output, its files, the rights that it has, the programs that
/// it runs, and its clock. It counts its faults, and prints the reason of each on the standard error, and what stands of
/// a change that ends by one.
#[derive(Drop)]
pub struct RealHost<R: Input> {
    rt: R,
    alloc: Global,
    scratch: Text,
    input: R::Reader,
    disk: Disk,
    standing: Standing,
    ins: u64,
    outs: u64,
    disks: u64,
    children: u64,
}

impl<R: Files<File = File> + Input + Print + Eprint + Processes + Clock + Drop> RealHost<R> {
    /// The host over a runtime. Others that have a right or a lock are waited for so long. The input of a child is put
    /// into the file `scratch`, which is the host's own.
    pub fn new(
        rt: R,
        alloc: Global,
        scratch: &[u8],
        wait: Duration,
    ) -> Result<RealHost<R>, Memory> {
        let input = rt.reader();
        Ok(RealHost {
            rt,
            alloc,
            scratch: Text::copy(alloc, scratch)?,
            input,
            disk: Disk::new(alloc, wait),
            standing: Standing::new(0),
            ins: 0,
            outs: 0,
            disks: 0,
            children: 0,
        })
    }

    /// The host of a delivery: its commits only add to mailboxes. Run by the system's administrator it goes on whatever
    /// others do to theirs under its locks.
    pub fn deliver(&mut self) {
        self.disk.deliver();
    }

    /// How many calls on the disk have failed.
    pub fn disk_faults(&self) -> u64
        ensures { result ≡ self.now.disks }
    {
        self.disks
    }

    /// How many programs and editors could not be run.
    pub fn child_faults(&self) -> u64
        ensures { result ≡ self.now.children }
    {
        self.children
    }
}

// Counts a fault, and prints its reason.
fn counted<R: Eprint, T: Drop>(
    rt: &R,
    alloc: Global,
    speaker: Speaker,
    name: &[u8],
    answer: Result<T, FileError>,
    count: &mut u64,
) -> Result<T, DiskFault>
    ensures later { count.old ≤ count.new }
    ensures cause { OnErr result (Rose count.old count.new) }
{
    match answer {
        Ok(answer) => Ok(answer),
        Err(error) => {
            *count = count.saturating_add(1);
            tell(rt, alloc, speaker, name, &error);
            Err(DiskFault)
        }
    }
}

impl<R: Files<File = File> + Input + Print + Eprint + Processes + Clock + Drop> Host
    for RealHost<R> {
    ghost world = { record {
      start = λ _. empty_disk;
      told = λ _. None;
      counts = λ m. record { ins = m.ins; outs = m.outs; disks = m.disks; children = m.children };
    } };

    fn fill(&mut self, buf: &mut [u8]) -> Result<usize, InFault> {
        match take(&self.rt, &mut self.input, buf) {
            Ok(n) => Ok(n),
            Err(error) => {
                self.ins = self.ins.saturating_add(1);
                tell(
                    &self.rt,
                    self.alloc,
                    self.disk.speaker(),
                    b"standard input",
                    &FileError::System(error),
                );
                Err(InFault)
            }
        }
    }

    fn say(&mut self, bytes: &[u8]) -> Result<(), OutFault> {
        match put(&self.rt, bytes) {
            Ok(()) => Ok(()),
            Err(error) => {
                self.outs = self.outs.saturating_add(1);
                tell(
                    &self.rt,
                    self.alloc,
                    self.disk.speaker(),
                    b"standard output",
                    &FileError::System(error),
                );
                Err(OutFault)
            }
        }
    }

    fn load(&mut self, alloc: Global, name: &[u8]) -> Result<LoadAnswer, LoadError> {
        match self.disk.load(&self.rt, alloc, name) {
            Ok(answer) => {
                if self.disk.is_record(name) {
                    self.standing.found(answer.bytes.as_ref().map(Text::bytes));
                }
                Ok(answer)
            }
            Err(FileError::TooLarge { length }) if length > LOAD_LIMIT => {
                Err(LoadError::TooLarge { length })
            }
            Err(FileError::Memory) => Err(LoadError::Memory),
            Err(error) => {
                self.disks = self.disks.saturating_add(1);
                tell(&self.rt, self.alloc, self.disk.speaker(), name, &error);
                Err(LoadError::Failed)
            }
        }
    }

    fn stage(&mut self, name: &[u8], bytes: &[u8]) -> Result<(), DiskFault> {
        let answer = self.disk.stage(&self.rt, name, bytes);
        let speaker = self.disk.speaker();
        counted(&self.rt, self.alloc, speaker, name, answer, &mut self.disks)
    }

    fn publish(&mut self, from: &[u8], to: &[u8]) -> Result<bool, DiskFault> {
        let answer = self.disk.publish(&self.rt, from, to);
        if self.disk.is_record(to) {
            self.standing.put(answer.is_err());
        }
        let speaker = self.disk.speaker();
        counted(&self.rt, self.alloc, speaker, to, answer, &mut self.disks)
    }

    fn extend(&mut self, name: &[u8], at: u64, bytes: &[u8]) -> Result<(), DiskFault> {
        let answer = self.disk.extend(&self.rt, name, at, bytes);
        let speaker = self.disk.speaker();
        counted(&self.rt, self.alloc, speaker, name, answer, &mut self.disks)
    }

    fn erase(&mut self, name: &[u8]) -> Result<(), DiskFault> {
        let answer = self.disk.erase(&self.rt, name);
        if answer.is_ok() && self.disk.is_record(name) {
            self.standing.taken();
        }
        let speaker = self.disk.speaker();
        counted(&self.rt, self.alloc, speaker, name, answer, &mut self.disks)
    }

    fn lock(&mut self, name: &[u8], token: u64) -> Result<bool, DiskFault> {
        let answer = self.disk.lock(&self.rt, name, token);
        let speaker = self.disk.speaker();
        counted(&self.rt, self.alloc, speaker, name, answer, &mut self.disks)
    }

    fn unlock(&mut self, name: &[u8], token: u64) -> Result<(), DiskFault> {
        let answer = self.disk.unlock(&self.rt, name, token);
        let speaker = self.disk.speaker();
        counted(&self.rt, self.alloc, speaker, name, answer, &mut self.disks)
    }

    fn seize(&mut self, name: &[u8]) -> Result<bool, DiskFault> {
        self.standing = Standing::new(self.disks);
        let answer = self.disk.seize(&self.rt, name);
        let speaker = self.disk.speaker();
        counted(&self.rt, self.alloc, speaker, name, answer, &mut self.disks)
    }

    fn release(&mut self, name: &[u8]) {
        self.disk.release(name);
        let speaker = self.disk.speaker();
        if let Some(words) = self.standing.words(self.disks, speaker) {
            let record = self.disk.record();
            let about = match &record {
                Some(record) => record.as_bytes(),
                None => name,
            };
            tell_words(&self.rt, self.alloc, speaker, about, words);
        }
    }

    fn child(
        &mut self,
        alloc: Global,
        program: &[u8],
        args: &[Text],
        input: &[u8],
    ) -> Result<ChildAnswer, ChildError> {
        match run(&self.rt, alloc, self.scratch.bytes(), program, args, input) {
            Ok(answer) => Ok(answer),
            Err(FileError::Memory) => Err(ChildError::Memory),
            Err(error) => {
                self.children = self.children.saturating_add(1);
                tell(&self.rt, self.alloc, self.disk.speaker(), program, &error);
                Err(ChildError::Failed)
            }
        }
    }

    fn edit(
        &mut self,
        alloc: Global,
        name: &[u8],
        shell: &[u8],
        command: &[u8],
        text: &[u8],
    ) -> Result<EditAnswer, ChildError> {
        match edit(&self.rt, alloc, name, shell, command, text) {
            Ok(answer) => Ok(answer),
            Err(FileError::Memory) => Err(ChildError::Memory),
            Err(error) => {
                self.children = self.children.saturating_add(1);
                tell(&self.rt, self.alloc, self.disk.speaker(), name, &error);
                Err(ChildError::Failed)
            }
        }
    }

    fn now(&mut self) -> i64 {
        match self.rt.since_1970() {
            Ok(time) => i64::try_from(time.as_secs()).unwrap_or(i64::MAX),
            Err(_) => 0,
        }
    }
}
