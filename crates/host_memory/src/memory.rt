// A host in memory, which tells its trace.
ghost use Rattle.std.specs.Prelude.{◌≡◌, ◌<◌, ◌≤◌, ◌+◌, ◌++◌, ◌∷◌, [], List, Some, None, true, false, length, take, drop, IfOk, OnErr, is_err, IsTrue, ◌↔◌};
ghost use Rattle.std.specs.Option.{option_copied};
ghost use Rattle.host_port.specs.Disk.{disk};
ghost use Rattle.host_port.specs.Ends.{stopped};
ghost use Rattle.host_port.specs.Names.{IsFileName};
ghost use Rattle.host_port.specs.Calls.{Calls, NeverFall, Rose, Filled, Said, Loaded, LoadCause, Staged, Published, Extended, Erased, Locked, Unlocked, Seized, Released, ChildRan, ChildCause, Edited, EditCause, TimeTold};
ghost use Rattle.host_memory.specs.Children.{next_given};
ghost use Rattle.host_memory.specs.Edits.{next_edit};
ghost use Rattle.memory_disk.specs.Standings.{ShowsSame};
ghost use Rattle.host_memory.specs.Views.{disk_of, NamesOnce};
ghost use Rattle.host_port.specs.declared.event.Event.{Event};
ghost use Rattle.host_port.specs.declared.event.Event.TheVariants as event;

use crate::Plan;
use crate::calls::{failing, tell_failed_load, tell_load, tell_now, tell_out, tell_release};
use crate::children::{Run, tell_child, used_after};
use crate::disk_calls::{Asked, tell_asked};
use crate::editors::{Editing, edited_after, tell_edit};
use crate::filling::tell_fill;
use crate::images::{image, show, standing_of};
use crate::tape::Tape;
use host_port::{
    ChildAnswer, ChildError, DiskFault, DiskView, EditAnswer, Event, Host, InFault, LoadAnswer,
    LoadError, OutFault, Part,
};
use mail_text::{Memory, Text};
use std::alloc::Global;

/// A host in memory. It tells its trace until one of its calls is refused memory; from then on it is lost.
///
/// Until it is lost a call that can fail is answered a fault exactly if its plan names the call's number or it would
/// extend a file that is absent or shorter, and the steps of others stand where the plan has them.
#[derive(Drop)]
pub struct MemHost {
    alloc: Global,
    tape: Tape,
    input: Text,
    at: usize,
    plan: Plan,
    used: usize,
    edited: usize,
    calls: u64,
    lost: bool,
    ins: u64,
    outs: u64,
    disks: u64,
    children: u64,
}

impl MemHost {
    ghost use Rattle.host_memory.specs.Asks.{event_of};
    ghost use Rattle.host_memory.specs.MemHosts.{host_world, host_told, host_start, host_counts, is_lost, next_part, after_disk, TakesNothing, IsDoneAsPlanned, IsUncalled};
    ghost use Rattle.host_memory.specs.Plans.{Ended};

    /// A host whose disk is the view, with no event so far.
    pub fn new(alloc: Global, view: DiskView, input: Text, plan: Plan) -> Result<MemHost, Memory>
        requires { 1 ≤ plan.chunk }
        ensures told { IfOk result (λ m. host_told m ≡ Some []) }
        ensures start { IfOk result (λ m. host_start m ≡ disk_of view.files view.locks) }
        ensures uncalled { IfOk result (IsUncalled input plan) }
    {
        match standing_of(alloc, &view) {
            Ok(standing) => {
                let tape = Tape {
                    start: view,
                    standing,
                    trace: Vec::new(alloc),
                };
                Ok(MemHost {
                    alloc,
                    tape,
                    input,
                    at: 0,
                    plan,
                    used: 0,
                    edited: 0,
                    calls: 0,
                    lost: false,
                    ins: 0,
                    outs: 0,
                    disks: 0,
                    children: 0,
                })
            }
            Err(memory) => {
                drop(view);
                drop(input);
                drop(plan);
                Err(memory)
            }
        }
    }

    /// The events so far. What it gives on a lost host is open. It takes no memory.
    pub fn trace(&self) -> &[Event]
        ensures { (trace : List Event) → host_told self.now ≡ Some trace → result.now ≡ trace }
    {
        &self.tape.trace
    }

    /// The disk as it stands, with each name once in a list. Which disk it gives on a lost host is open.
    pub fn view(&self) -> Result<DiskView, Memory>
        ensures shows { IfOk result
            (λ v. (trace : List Event) → host_told self.now ≡ Some trace
            → ShowsSame (disk_of v.files v.locks) (disk (host_start self.now) trace)) }
        ensures once { IfOk result (λ v. NamesOnce v.files × NamesOnce v.locks) }
    {
        show(self.alloc, &self.tape.standing)
    }

    /// The file of a name as it stands. Which it gives on a lost host is open. It takes no memory.
    pub fn file(&self, name: &[u8]) -> Option<&Text>
        ensures { (trace : List Event) → host_told self.now ≡ Some trace
            → option_copied result ≡ (disk (host_start self.now) trace).files name.now }
    {
        self.tape.standing.files.get(name)
    }

    /// The image of a stop inside the event of this number, counted from 1, of which this part was done: what
    /// stands where the run ends there, with each name once in a list. Past the trace's end, and on a lost host,
    /// which disk it gives is open.
    pub fn stop_at(&self, n: usize, part: &Part) -> Result<DiskView, Memory>
        ensures shows { IfOk result
            (λ v. (before rest : List Event) (e : Event) → host_told self.now ≡ Some (before ++ e ∷ rest)
            → length before + 1 ≡ n
            → ShowsSame (disk_of v.files v.locks) (stopped (disk (host_start self.now) before) e part.now)) }
        ensures once { IfOk result (λ v. NamesOnce v.files × NamesOnce v.locks) }
    {
        image(self.alloc, &self.tape.start, &self.tape.trace, n, part)
    }

    /// Whether a call was refused memory. It takes no memory.
    pub fn lost(&self) -> bool
        ensures { IsTrue result ↔ (host_told self.now ≡ None) }
    {
        self.lost
    }

    // Asks something of the disk, and gives what the plan has for it.
    fn ask(&mut self, asked: Asked<'_>) -> Result<bool, DiskFault>
        ensures start { host_start self.new ≡ host_start self.old }
        ensures call { Calls host_world self.old self.new (Ended (event_of asked.entry) result) }
        ensures counts { NeverFall (host_counts self.old) (host_counts self.new) }
        ensures cause { OnErr result (Rose (host_counts self.old).disks (host_counts self.new).disks) }
        ensures planned { IsDoneAsPlanned self.old self.new (event_of asked.entry) (next_part self.old)
            (is_err result) }
        ensures kept { TakesNothing self.old self.new }
        ensures counted { host_counts self.new ≡ after_disk (is_err result) (host_counts self.old) }
        ensures lost { is_lost self.new ≡ true → is_err result ≡ true }
    {
        self.calls = self.calls.saturating_add(1);
        if !self.lost {
            match tell_asked(self.alloc, &self.plan, self.calls, &mut self.tape, asked) {
                Ok(Ok(answer)) => return Ok(answer),
                Ok(Err(fault)) => {
                    self.disks = self.disks.saturating_add(1);
                    return Err(fault);
                }
                Err(_) => self.lost = true,
            }
        }
        self.disks = self.disks.saturating_add(1);
        Err(DiskFault)
    }
}

impl Host for MemHost {
    ghost use Rattle.host_memory.specs.MemHosts.{host_world, host_told, host_start, host_counts, is_failed_load, wants_memory, is_lost, next_part, input_left, next_input, after_input, after_output, after_disk, after_child, is_failed_child, child_wants_memory, answers_left, is_failed_edit, edit_wants_memory, edits_left, TakesNothing, IsAsPlanned, IsDoneAsPlanned, SaysAsPlanned};

    ghost world = { host_world };

    fn fill(&mut self, buf: &mut [u8]) -> Result<usize, InFault>
        requires { 0 < length buf.old }
        ensures bound { IfOk result (λ n. n ≤ length buf.old) }
        ensures start { host_start self.new ≡ host_start self.old }
        ensures call { Calls host_world self.old self.new (Filled result buf.new) }
        ensures counts { NeverFall (host_counts self.old) (host_counts self.new) }
        ensures cause { OnErr result (Rose (host_counts self.old).ins (host_counts self.new).ins) }
        ensures planned { IsAsPlanned self.old self.new (is_err result) }
        ensures given { IfOk result (λ n. take n buf.new ≡ next_input self.old (length buf.old)) }
        ensures left { IfOk result (λ n. input_left self.new ≡ drop n (input_left self.old)) }
        ensures kept { OnErr result (input_left self.new ≡ input_left self.old) }
        ensures answers { answers_left self.new ≡ answers_left self.old }
        ensures edits { edits_left self.new ≡ edits_left self.old }
        ensures counted { host_counts self.new ≡ after_input (is_err result) (host_counts self.old) }
        ensures lost { is_lost self.new ≡ true → is_err result ≡ true }
    {
        self.calls = self.calls.saturating_add(1);
        if !self.lost {
            match tell_fill(
                self.alloc,
                &self.plan,
                self.calls,
                &mut self.tape,
                self.input.bytes(),
                self.at,
                buf,
            ) {
                Ok(Some((count, next))) => {
                    self.at = next;
                    return Ok(count);
                }
                Ok(None) => {}
                Err(_) => self.lost = true,
            }
        }
        self.ins = self.ins.saturating_add(1);
        Err(InFault)
    }

    fn say(&mut self, bytes: &[u8]) -> Result<(), OutFault>
        ensures start { host_start self.new ≡ host_start self.old }
        ensures call { Calls host_world self.old self.new (Said result bytes.now) }
        ensures counts { NeverFall (host_counts self.old) (host_counts self.new) }
        ensures cause { OnErr result (Rose (host_counts self.old).outs (host_counts self.new).outs) }
        ensures planned { IsAsPlanned self.old self.new (is_err result) }
        ensures sent { SaysAsPlanned self.old self.new bytes.now (is_err result) }
        ensures kept { TakesNothing self.old self.new }
        ensures counted { host_counts self.new ≡ after_output (is_err result) (host_counts self.old) }
        ensures lost { is_lost self.new ≡ true → is_err result ≡ true }
    {
        self.calls = self.calls.saturating_add(1);
        let part = failing(self.plan.fails.items(), self.calls);
        let (sent, fails) = match part {
            None => (bytes.len(), false),
            Some(Part::After) => (bytes.len(), true),
            Some(_) => (0, true),
        };
        if !self.lost {
            match tell_out(
                self.alloc,
                self.plan.foreign.items(),
                self.calls,
                &mut self.tape,
                &bytes[..sent],
                fails,
            ) {
                Ok(()) => {
                    if !fails {
                        return Ok(());
                    }
                }
                Err(_) => self.lost = true,
            }
        }
        self.outs = self.outs.saturating_add(1);
        Err(OutFault)
    }

    fn load(&mut self, alloc: Global, name: &[u8]) -> Result<LoadAnswer, LoadError>
        requires { IsFileName name.now }
        ensures start { host_start self.new ≡ host_start self.old }
        ensures call { Calls host_world self.old self.new (Loaded name.now result) }
        ensures counts { NeverFall (host_counts self.old) (host_counts self.new) }
        ensures cause { LoadCause (host_counts self.old).disks (host_counts self.new).disks result }
        ensures planned { IsAsPlanned self.old self.new (is_failed_load result) }
        ensures kept { TakesNothing self.old self.new }
        ensures counted { host_counts self.new ≡ after_disk (is_failed_load result) (host_counts self.old) }
        ensures lost { wants_memory result ≡ is_lost self.new }
    {
        self.calls = self.calls.saturating_add(1);
        if self.lost {
            return Err(LoadError::Memory);
        }
        if failing(self.plan.fails.items(), self.calls).is_some() {
            match tell_failed_load(
                alloc,
                self.plan.foreign.items(),
                self.calls,
                &mut self.tape,
                name,
            ) {
                Ok(()) => {
                    self.disks = self.disks.saturating_add(1);
                    return Err(LoadError::Failed);
                }
                Err(_) => {
                    self.lost = true;
                    return Err(LoadError::Memory);
                }
            }
        }
        match tell_load(
            alloc,
            self.plan.foreign.items(),
            self.calls,
            &mut self.tape,
            name,
        ) {
            Ok(answer) => answer,
            Err(_) => {
                self.lost = true;
                Err(LoadError::Memory)
            }
        }
    }

    fn stage(&mut self, name: &[u8], bytes: &[u8]) -> Result<(), DiskFault>
        requires { IsFileName name.now }
        ensures start { host_start self.new ≡ host_start self.old }
        ensures call { Calls host_world self.old self.new (Staged name.now bytes.now result) }
        ensures counts { NeverFall (host_counts self.old) (host_counts self.new) }
        ensures cause { OnErr result (Rose (host_counts self.old).disks (host_counts self.new).disks) }
        ensures planned { IsDoneAsPlanned self.old self.new (event.Stage name.now (Some bytes.now) false)
            (next_part self.old) (is_err result) }
        ensures kept { TakesNothing self.old self.new }
        ensures counted { host_counts self.new ≡ after_disk (is_err result) (host_counts self.old) }
        ensures lost { is_lost self.new ≡ true → is_err result ≡ true }
    {
        match self.ask(Asked::Stage { name, bytes }) {
            Ok(_) => Ok(()),
            Err(fault) => Err(fault),
        }
    }

    fn publish(&mut self, from: &[u8], to: &[u8]) -> Result<bool, DiskFault>
        requires source { IsFileName from.now }
        requires target { IsFileName to.now }
        ensures start { host_start self.new ≡ host_start self.old }
        ensures call { Calls host_world self.old self.new (Published from.now to.now result) }
        ensures counts { NeverFall (host_counts self.old) (host_counts self.new) }
        ensures cause { OnErr result (Rose (host_counts self.old).disks (host_counts self.new).disks) }
        ensures planned { IsDoneAsPlanned self.old self.new (event.Publish from.now to.now true false)
            (next_part self.old) (is_err result) }
        ensures kept { TakesNothing self.old self.new }
        ensures counted { host_counts self.new ≡ after_disk (is_err result) (host_counts self.old) }
        ensures lost { is_lost self.new ≡ true → is_err result ≡ true }
    {
        self.ask(Asked::Publish { from, to })
    }

    fn extend(&mut self, name: &[u8], at: u64, bytes: &[u8]) -> Result<(), DiskFault>
        requires { IsFileName name.now }
        ensures start { host_start self.new ≡ host_start self.old }
        ensures call { Calls host_world self.old self.new (Extended name.now at bytes.now result) }
        ensures counts { NeverFall (host_counts self.old) (host_counts self.new) }
        ensures cause { OnErr result (Rose (host_counts self.old).disks (host_counts self.new).disks) }
        ensures planned { IsDoneAsPlanned self.old self.new (event.Extend name.now at bytes.now false)
            (next_part self.old) (is_err result) }
        ensures kept { TakesNothing self.old self.new }
        ensures counted { host_counts self.new ≡ after_disk (is_err result) (host_counts self.old) }
        ensures lost { is_lost self.new ≡ true → is_err result ≡ true }
    {
        let tail = bytes;
        match self.ask(Asked::Extend { name, at, tail }) {
            Ok(_) => Ok(()),
            Err(fault) => Err(fault),
        }
    }

    fn erase(&mut self, name: &[u8]) -> Result<(), DiskFault>
        requires { IsFileName name.now }
        ensures start { host_start self.new ≡ host_start self.old }
        ensures call { Calls host_world self.old self.new (Erased name.now result) }
        ensures counts { NeverFall (host_counts self.old) (host_counts self.new) }
        ensures cause { OnErr result (Rose (host_counts self.old).disks (host_counts self.new).disks) }
        ensures planned { IsDoneAsPlanned self.old self.new (event.Erase name.now true false)
            (next_part self.old) (is_err result) }
        ensures kept { TakesNothing self.old self.new }
        ensures counted { host_counts self.new ≡ after_disk (is_err result) (host_counts self.old) }
        ensures lost { is_lost self.new ≡ true → is_err result ≡ true }
    {
        match self.ask(Asked::Erase { name }) {
            Ok(_) => Ok(()),
            Err(fault) => Err(fault),
        }
    }

    fn lock(&mut self, name: &[u8], token: u64) -> Result<bool, DiskFault>
        requires { IsFileName name.now }
        ensures start { host_start self.new ≡ host_start self.old }
        ensures call { Calls host_world self.old self.new (Locked name.now token result) }
        ensures counts { NeverFall (host_counts self.old) (host_counts self.new) }
        ensures cause { OnErr result (Rose (host_counts self.old).disks (host_counts self.new).disks) }
        ensures planned { IsDoneAsPlanned self.old self.new (event.Lock name.now token true false)
            (next_part self.old) (is_err result) }
        ensures kept { TakesNothing self.old self.new }
        ensures counted { host_counts self.new ≡ after_disk (is_err result) (host_counts self.old) }
        ensures lost { is_lost self.new ≡ true → is_err result ≡ true }
    {
        self.ask(Asked::Lock { name, token })
    }

    fn unlock(&mut self, name: &[u8], token: u64) -> Result<(), DiskFault>
        requires { IsFileName name.now }
        ensures start { host_start self.new ≡ host_start self.old }
        ensures call { Calls host_world self.old self.new (Unlocked name.now token result) }
        ensures counts { NeverFall (host_counts self.old) (host_counts self.new) }
        ensures cause { OnErr result (Rose (host_counts self.old).disks (host_counts self.new).disks) }
        ensures planned { IsDoneAsPlanned self.old self.new (event.Unlock name.now token true false)
            (next_part self.old) (is_err result) }
        ensures kept { TakesNothing self.old self.new }
        ensures counted { host_counts self.new ≡ after_disk (is_err result) (host_counts self.old) }
        ensures lost { is_lost self.new ≡ true → is_err result ≡ true }
    {
        match self.ask(Asked::Unlock { name, token }) {
            Ok(_) => Ok(()),
            Err(fault) => Err(fault),
        }
    }

    fn seize(&mut self, name: &[u8]) -> Result<bool, DiskFault>
        requires { IsFileName name.now }
        ensures start { host_start self.new ≡ host_start self.old }
        ensures call { Calls host_world self.old self.new (Seized name.now result) }
        ensures counts { NeverFall (host_counts self.old) (host_counts self.new) }
        ensures cause { OnErr result (Rose (host_counts self.old).disks (host_counts self.new).disks) }
        ensures planned { IsDoneAsPlanned self.old self.new (event.Seize name.now true false)
            (next_part self.old) (is_err result) }
        ensures kept { TakesNothing self.old self.new }
        ensures counted { host_counts self.new ≡ after_disk (is_err result) (host_counts self.old) }
        ensures lost { is_lost self.new ≡ true → is_err result ≡ true }
    {
        self.ask(Asked::Seize { name })
    }

    fn release(&mut self, name: &[u8])
        requires { IsFileName name.now }
        ensures start { host_start self.new ≡ host_start self.old }
        ensures call { Calls host_world self.old self.new (Released name.now) }
        ensures counts { NeverFall (host_counts self.old) (host_counts self.new) }
        ensures planned { IsDoneAsPlanned self.old self.new (event.Release name.now) None false }
        ensures kept { TakesNothing self.old self.new }
        ensures counted { host_counts self.new ≡ host_counts self.old }
    {
        self.calls = self.calls.saturating_add(1);
        if self.lost {
            return;
        }
        match tell_release(
            self.alloc,
            self.plan.foreign.items(),
            self.calls,
            &mut self.tape,
            name,
        ) {
            Ok(()) => {}
            Err(_) => self.lost = true,
        }
    }

    fn child(
        &mut self,
        alloc: Global,
        program: &[u8],
        args: &[Text],
        input: &[u8],
    ) -> Result<ChildAnswer, ChildError>
        ensures start { host_start self.new ≡ host_start self.old }
        ensures call { Calls host_world self.old self.new (ChildRan program.now args.now input.now result) }
        ensures counts { NeverFall (host_counts self.old) (host_counts self.new) }
        ensures cause { ChildCause (host_counts self.old).children (host_counts self.new).children result }
        ensures planned { IsAsPlanned self.old self.new (is_failed_child result) }
        ensures given { IfOk result (λ a. a ≡ next_given (answers_left self.old)) }
        ensures left { IfOk result (λ a. answers_left self.new ≡ drop 1 (answers_left self.old)) }
        ensures kept { OnErr result (answers_left self.new ≡ answers_left self.old) }
        ensures edits { edits_left self.new ≡ edits_left self.old }
        ensures input { input_left self.new ≡ input_left self.old }
        ensures counted { host_counts self.new ≡ after_child (is_failed_child result) (host_counts self.old) }
        ensures lost { child_wants_memory result ≡ is_lost self.new }
    {
        self.calls = self.calls.saturating_add(1);
        if self.lost {
            return Err(ChildError::Memory);
        }
        let run = Run {
            program,
            args,
            input,
        };
        match tell_child(
            alloc,
            &self.plan,
            self.used,
            self.calls,
            &mut self.tape,
            run,
        ) {
            Ok(Some(answer)) => {
                self.used = used_after(self.plan.children.items(), self.used);
                Ok(answer)
            }
            Ok(None) => {
                self.children = self.children.saturating_add(1);
                Err(ChildError::Failed)
            }
            Err(_) => {
                self.lost = true;
                Err(ChildError::Memory)
            }
        }
    }

    fn edit(
        &mut self,
        alloc: Global,
        name: &[u8],
        shell: &[u8],
        command: &[u8],
        text: &[u8],
    ) -> Result<EditAnswer, ChildError>
        ensures start { host_start self.new ≡ host_start self.old }
        ensures call { Calls host_world self.old self.new (Edited name.now shell.now command.now text.now result) }
        ensures counts { NeverFall (host_counts self.old) (host_counts self.new) }
        ensures cause { EditCause (host_counts self.old).children (host_counts self.new).children result }
        ensures planned { IsAsPlanned self.old self.new (is_failed_edit result) }
        ensures given { IfOk result (λ a. a ≡ next_edit text.now (edits_left self.old)) }
        ensures left { IfOk result (λ a. edits_left self.new ≡ drop 1 (edits_left self.old)) }
        ensures kept { OnErr result (edits_left self.new ≡ edits_left self.old) }
        ensures answers { answers_left self.new ≡ answers_left self.old }
        ensures input { input_left self.new ≡ input_left self.old }
        ensures counted { host_counts self.new ≡ after_child (is_failed_edit result) (host_counts self.old) }
        ensures lost { edit_wants_memory result ≡ is_lost self.new }
    {
        self.calls = self.calls.saturating_add(1);
        if self.lost {
            return Err(ChildError::Memory);
        }
        let editing = Editing {
            name,
            shell,
            command,
            text,
        };
        match tell_edit(
            alloc,
            &self.plan,
            self.edited,
            self.calls,
            &mut self.tape,
            editing,
        ) {
            Ok(Some(answer)) => {
                self.edited = edited_after(self.plan.edits.items(), self.edited);
                Ok(answer)
            }
            Ok(None) => {
                self.children = self.children.saturating_add(1);
                Err(ChildError::Failed)
            }
            Err(_) => {
                self.lost = true;
                Err(ChildError::Memory)
            }
        }
    }

    fn now(&mut self) -> i64
        ensures start { host_start self.new ≡ host_start self.old }
        ensures call { Calls host_world self.old self.new (TimeTold result) }
        ensures counts { NeverFall (host_counts self.old) (host_counts self.new) }
        ensures planned { IsDoneAsPlanned self.old self.new (event.Now result) None false }
        ensures time { result ≡ self.old.plan.now }
        ensures kept { TakesNothing self.old self.new }
        ensures counted { host_counts self.new ≡ host_counts self.old }
    {
        self.calls = self.calls.saturating_add(1);
        let seconds = self.plan.now;
        if !self.lost {
            match tell_now(
                self.alloc,
                self.plan.foreign.items(),
                self.calls,
                &mut self.tape,
                seconds,
            ) {
                Ok(()) => {}
                Err(_) => self.lost = true,
            }
        }
        seconds
    }
}
