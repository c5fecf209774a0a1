// The disks that a run leaves if it stops inside an event.
ghost use Rattle.std.specs.Prelude.{◌≡◌, ◌+◌, ◌++◌, ◌∷◌, List, IfOk, length};
ghost use Rattle.host_port.specs.Disk.{disk, SameDisk};
ghost use Rattle.host_port.specs.Ends.{stopped};
ghost use Rattle.memory_disk.specs.Standings.{disk_now, ShowsSame};
ghost use Rattle.host_memory.specs.Views.{disk_of, NamesOnce};
ghost use Rattle.host_port.specs.declared.event.Event.{Event};

use host_port::{DiskView, Event, Part};
use mail_text::Memory;
use memory_disk::{Standing, show_files, show_locks, stop};
use std::alloc::Global;

/// What stands on the disk that a view shows. Nobody has a right there.
pub fn standing_of(alloc: Global, view: &DiskView) -> Result<Standing, Memory>
    ensures { IfOk result (λ s. SameDisk (disk_now s) (disk_of view.now.files view.now.locks)) }
{
    memory_disk::standing_of(alloc, view.files.items(), view.locks.items())
}

// The disk after these events.
fn replayed(alloc: Global, start: &DiskView, events: &[Event]) -> Result<Standing, Memory>
    ensures { IfOk result (λ s. SameDisk (disk_now s) (disk (disk_of start.now.files start.now.locks) events.now)) }
{
    memory_disk::replayed(alloc, start.files.items(), start.locks.items(), events)
}

/// The files and locks as lists, in which each name stands once.
pub fn show(alloc: Global, disk: &Standing) -> Result<DiskView, Memory>
    ensures shows { IfOk result (λ v. ShowsSame (disk_of v.files v.locks) (disk_now disk.now)) }
    ensures once { IfOk result (λ v. NamesOnce v.files × NamesOnce v.locks) }
{
    let files = show_files(alloc, &disk.files)?;
    let locks = show_locks(alloc, &disk.locks)?;
    Ok(DiskView { files, locks })
}

// The same of a disk that nobody looks at any more.
fn show_last(alloc: Global, disk: Standing) -> Result<DiskView, Memory>
    ensures shows { IfOk result (λ v. ShowsSame (disk_of v.files v.locks) (disk_now disk)) }
    ensures once { IfOk result (λ v. NamesOnce v.files × NamesOnce v.locks) }
{
    let shown = show(alloc, &disk);
    drop(disk);
    shown
}

// What a stop inside an event leaves that comes after these events.
fn image_inside(
    alloc: Global,
    start: &DiskView,
    before: &[Event],
    event: &Event,
    part: &Part,
) -> Result<DiskView, Memory>
    ensures shows { IfOk result
        (λ v. ShowsSame (disk_of v.files v.locks)
        (stopped (disk (disk_of start.now.files start.now.locks) before.now) event.now part.now)) }
    ensures once { IfOk result (λ v. NamesOnce v.files × NamesOnce v.locks) }
{
    let mut disk = replayed(alloc, start, before)?;
    match stop(alloc, &mut disk, event, part) {
        Ok(()) => show_last(alloc, disk),
        Err(memory) => {
            drop(disk);
            Err(memory)
        }
    }
}

/// What a stop inside the event of this number leaves. Past the trace's end what it gives is open.
pub fn image(
    alloc: Global,
    start: &DiskView,
    trace: &[Event],
    n: usize,
    part: &Part,
) -> Result<DiskView, Memory>
    ensures shows { IfOk result
        (λ v. (before rest : List Event) (e : Event) → trace.now ≡ before ++ e ∷ rest → length before + 1 ≡ n
        → ShowsSame (disk_of v.files v.locks)
        (stopped (disk (disk_of start.now.files start.now.locks) before) e part.now)) }
    ensures once { IfOk result (λ v. NamesOnce v.files × NamesOnce v.locks) }
{
    let at = n.saturating_sub(1);
    match trace.get(at) {
        Some(event) => image_inside(alloc, start, &trace[..at], event, part),
        None => {
            let disk = replayed(alloc, start, trace)?;
            show_last(alloc, disk)
        }
    }
}
