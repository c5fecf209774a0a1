// What recovery by all actors would make of a disk, name by name.
ghost use Rattle.std.specs.Prelude.{◌≡◌, ◌++◌, false, None, List, ℕ, IfOk, OnOk, map, if◌then◌else◌};
ghost use Rattle.std.specs.List.{flat_map};
ghost use Rattle.std.specs.Option.{option_copied};
ghost use Rattle.host_port.specs.Disk.{SameDisk, with_at};
ghost use Rattle.memory_disk.specs.Lists.{named, lookup, NamesOnce};
ghost use Rattle.memory_disk.specs.Standings.{disk_now};
ghost use Rattle.commit_machine.specs.Records.{has};
ghost use Rattle.core_steps.specs.Settling.{standing_in, puts, hidden_by, placed_by, settled_by, settled_locks_by};
ghost use Rattle.actor_disk.specs.Settling.{names_found, SettlesNames, SettlesLocks, frees, is_freed};

use actor_ground::{hides, is_go, settled, standing};
use commit_machine::staged_name;
use commit_record::{Entry, Record};
use core_steps::Member;
use host_port::{DiskView, Event};
use mail_text::{Items, Memory, Text};
use memory_disk::{Named, Standing, copy_found, effect, show_files, show_locks, standing_of};
use std::alloc::Global;

// Whether recovery by one of these actors leaves a name out.
fn is_hidden(
    alloc: Global,
    members: &[Member],
    files: &Named<Text>,
    name: &[u8],
) -> Result<bool, Memory>
    ensures { IfOk result
        (λ b. b ≡ hidden_by (map (λ m. m.actor.name) members.now) (named files.now) name.now) }
{
    match members {
        [] => Ok(false),
        [first, rest @ ..] => {
            let actor = first.actor.name.bytes();
            let found = standing(alloc, actor, files)?;
            if hides(alloc, actor, found.as_ref(), name)? {
                Ok(true)
            } else {
                is_hidden(alloc, rest, files, name)
            }
        }
    }
}

// Whether one of these entries has this name.
fn has_name(entries: &[Entry], name: &[u8]) -> bool
    ensures { result ≡ has (map (λ e. e.name) entries.now) name.now }
{
    match entries {
        [] => false,
        [first, rest @ ..] => name == first.name.bytes() || has_name(rest, name),
    }
}

// Whether a record was decided and names a file for which something is staged.
fn puts(
    alloc: Global,
    found: Option<&Record>,
    files: &Named<Text>,
    name: &[u8],
) -> Result<bool, Memory>
    ensures { IfOk result (λ b. b ≡ puts (option_copied found.entry) (named files.now) name.now) }
{
    match found {
        None => Ok(false),
        Some(value) => {
            let staged = staged_name(alloc, value.token, name)?;
            Ok(is_go(value) && has_name(value.entries.items(), name) && files.has(staged.bytes()))
        }
    }
}

// The file that recovery by one of these actors puts in place at a name, or else the file that stands.
fn placed_by(
    alloc: Global,
    members: &[Member],
    files: &Named<Text>,
    name: &[u8],
) -> Result<Option<Text>, Memory>
    requires { hidden_by (map (λ m. m.actor.name) members.now) (named files.now) name.now ≡ false }
    ensures { IfOk result
        (λ file. file ≡ placed_by (map (λ m. m.actor.name) members.now) (named files.now) name.now) }
{
    match members {
        [] => copy_found(alloc, files.get(name)),
        [first, rest @ ..] => {
            let actor = first.actor.name.bytes();
            let found = standing(alloc, actor, files)?;
            if puts(alloc, found.as_ref(), files, name)? {
                settled(alloc, actor, files, name)
            } else {
                placed_by(alloc, rest, files, name)
            }
        }
    }
}

// The file of a name, once recovery by all these actors is done.
fn settled_file(
    alloc: Global,
    members: &[Member],
    files: &Named<Text>,
    name: &[u8],
) -> Result<Option<Text>, Memory>
    ensures { IfOk result
        (λ file. file ≡ settled_by (map (λ m. m.actor.name) members.now) (named files.now) name.now) }
{
    if is_hidden(alloc, members, files, name)? {
        Ok(None)
    } else {
        placed_by(alloc, members, files, name)
    }
}

// Makes the settled file of a name stand on a disk.
fn settle_name(
    alloc: Global,
    members: &[Member],
    files: &Named<Text>,
    name: &[u8],
    disk: &mut Standing,
) -> Result<(), Memory>
    ensures { OnOk result
        (SameDisk (disk_now disk.new)
        (record (disk_now disk.old) {
          files = with_at (named disk.old.files) name.now
              (settled_by (map (λ m. m.actor.name) members.now) (named files.now) name.now);
        })) }
{
    let bytes = settled_file(alloc, members, files, name)?;
    let name = Text::copy(alloc, name)?;
    let event = Event::Stage {
        name,
        bytes,
        failed: false,
    };
    effect(alloc, disk, &event)
}

// Puts the names of these entries at the end.
fn put_names(alloc: Global, entries: &[Entry], names: &mut Items<Text>) -> Result<(), Memory>
    ensures { OnOk result (names.new ≡ names.old ++ map (λ e. e.name) entries.now) }
{
    for entry in entries {
        let name = Text::copy(alloc, entry.name.bytes())?;
        names.push(name)?;
    }
    Ok(())
}

// Puts the names of the record of this actor at the end, if one stands.
fn put_found(
    alloc: Global,
    actor: &[u8],
    files: &Named<Text>,
    names: &mut Items<Text>,
) -> Result<(), Memory>
    ensures { OnOk result
        (names.new ≡ names.old ++ names_found (standing_in (named files.now) actor.now)) }
{
    match standing(alloc, actor, files)? {
        None => Ok(()),
        Some(value) => put_names(alloc, value.entries.items(), names),
    }
}

// The names of files, and those of the records of these actors.
fn names_there(
    alloc: Global,
    listed: &[(Text, Text)],
    members: &[Member],
    files: &Named<Text>,
) -> Result<Items<Text>, Memory>
    ensures { IfOk result
        (λ names. names ≡ map (λ p. p.0) listed.now
        ++ flat_map (λ m. names_found (standing_in (named files.now) m.actor.name)) members.now) }
{
    let mut names = Items::new(alloc);
    for (name, _) in listed {
        let copy = Text::copy(alloc, name.bytes())?;
        names.push(copy)?;
    }
    for member in members {
        put_found(alloc, member.actor.name.bytes(), files, &mut names)?;
    }
    Ok(names)
}

// Makes the settled files of these names stand on a disk.
fn settle_names(
    alloc: Global,
    members: &[Member],
    files: &Named<Text>,
    names: &[Text],
    disk: &mut Standing,
) -> Result<(), Memory>
    ensures { OnOk result
        (SettlesNames (settled_by (map (λ m. m.actor.name) members.now) (named files.now)) names.now
        (disk_now disk.old) (disk_now disk.new)) }
{
    for name in names {
        settle_name(alloc, members, files, name.bytes(), disk)?;
    }
    Ok(())
}

// Whether a record takes a lock with this token away from a name.
fn frees(found: Option<&Record>, name: &[u8], token: u64) -> bool
    ensures { result ≡ frees (option_copied found.entry) name.now token }
{
    match found {
        None => false,
        Some(value) => has_name(value.entries.items(), name) && value.token == token,
    }
}

// Whether recovery by one of these actors does.
fn is_freed(
    alloc: Global,
    members: &[Member],
    files: &Named<Text>,
    name: &[u8],
    token: u64,
) -> Result<bool, Memory>
    ensures { IfOk result
        (λ b. b ≡ is_freed (named files.now) (map (λ m. m.actor.name) members.now) name.now token) }
{
    match members {
        [] => Ok(false),
        [first, rest @ ..] => {
            let found = standing(alloc, first.actor.name.bytes(), files)?;
            if frees(found.as_ref(), name, token) {
                Ok(true)
            } else {
                is_freed(alloc, rest, files, name, token)
            }
        }
    }
}

// Takes the lock of a name away on a disk, if recovery by one of these actors does.
fn settle_lock(
    alloc: Global,
    members: &[Member],
    files: &Named<Text>,
    name: &[u8],
    token: u64,
    disk: &mut Standing,
) -> Result<(), Memory>
    ensures { OnOk result
        (SameDisk (disk_now disk.new)
        (if is_freed (named files.now) (map (λ m. m.actor.name) members.now) name.now token
        then record (disk_now disk.old) { locks = with_at (named disk.old.locks) name.now None }
        else disk_now disk.old)) }
{
    if !is_freed(alloc, members, files, name, token)? {
        return Ok(());
    }
    let name = Text::copy(alloc, name)?;
    let event = Event::Unlock {
        name,
        token,
        done: true,
        failed: false,
    };
    effect(alloc, disk, &event)
}

// Makes the settled locks of these names stand on a disk.
fn settle_locks(
    alloc: Global,
    members: &[Member],
    files: &Named<Text>,
    locks: &[(Text, u64)],
    disk: &mut Standing,
) -> Result<(), Memory>
    requires once { NamesOnce locks.now }
    requires stand { (q : List ℕ) → named disk.old.locks q ≡ lookup locks.now q }
    ensures { OnOk result
        (SettlesLocks
        (settled_locks_by (map (λ m. m.actor.name) members.now) (named files.now) (lookup locks.now))
        (map (λ p. p.0) locks.now) (disk_now disk.old) (disk_now disk.new)) }
{
    for (name, token) in locks {
        settle_lock(alloc, members, files, name.bytes(), *token, disk)?;
    }
    Ok(())
}

/// The files and locks, once recovery by all these actors is done.
pub fn settled_view(
    alloc: Global,
    members: &[Member],
    files: &[(Text, Text)],
    locks: &[(Text, u64)],
) -> Result<DiskView, Memory>
    requires locks { NamesOnce locks.now }
    ensures files { IfOk result
        (λ v. (q : List ℕ)
        → lookup v.files q ≡ settled_by (map (λ m. m.actor.name) members.now) (lookup files.now) q) }
    ensures locks { IfOk result
        (λ v. (q : List ℕ)
        → lookup v.locks q
        ≡ settled_locks_by (map (λ m. m.actor.name) members.now) (lookup files.now) (lookup locks.now) q) }
    ensures once { IfOk result (λ v. NamesOnce v.files × NamesOnce v.locks) }
{
    let there = standing_of(alloc, files, locks)?;
    let mut disk = standing_of(alloc, files, locks)?;
    let names = names_there(alloc, files, members, &there.files)?;
    settle_names(alloc, members, &there.files, names.items(), &mut disk)?;
    settle_locks(alloc, members, &there.files, locks, &mut disk)?;
    let files = show_files(alloc, &disk.files)?;
    let locks = show_locks(alloc, &disk.locks)?;
    Ok(DiskView { files, locks })
}
