// The operations on a mailbox.
ghost use Rattle.std.specs.Prelude.{◌≡◌, true, false, [], IfSome, OnOk, IfOk};
ghost use Rattle.spool_rules.specs.declared.words.Operation.TheVariants as op;
ghost use Rattle.spool_rules.specs.Told.{HasInput, Once, Onward, OnlyLooked};
ghost use Rattle.spool_rules.specs.Lawful.{holds, LockedThen, NotLocked, GoneThen, Unlocks, Clears, ClearsAfter};
ghost use Rattle.spool_rules.specs.Lawful.{MayTake, MayReplace, is_own, is_free, is_one, Sound};
ghost use Rattle.spool_rules.specs.Causes.{Ended, IsStopped, IsStoppedAt, StandsAt};

use crate::calls::{link, look, make, remove, rename, sync, take};
use crate::port::{Found, Seen, Spool, Stop};
use crate::words::{Operation, Request};

/// The mode of a mailbox that is new: its user and the folder's group may read and write it, as delivery agents expect.
const NEW_MODE: u32 = 0o660;

// Whether a regular file of the caller's was seen.
fn is_own(number: u32, seen: Seen) -> bool
    ensures { result ≡ is_own number seen }
{
    match seen {
        Seen::File(found) => found.owner == number,
        _ => false,
    }
}

// Whether nothing was seen, or such a file.
fn is_free(number: u32, seen: Seen) -> bool
    ensures { result ≡ is_free number seen }
{
    match seen {
        Seen::Nothing => true,
        _ => is_own(number, seen),
    }
}

fn is_one(f: Found, g: Found) -> bool
    ensures { result ≡ is_one f g }
{
    f.device == g.device && f.inode == g.inode
}

// Whether the lock is the caller's by the token of its other name.
fn holds(number: u32, lock: Seen, beside: Seen) -> bool
    ensures { result ≡ holds number lock beside }
{
    match (lock, beside) {
        (Seen::File(f), Seen::File(g)) => f.owner == number && is_one(f, g),
        _ => false,
    }
}

// Whether the caller has locked the mailbox by the token.
fn has_locked<S: Spool>(out: &mut S, number: u32, request: &Request) -> Result<bool, Stop>
    ensures keeps { Sound number request.now (S.told out.old) → Sound number request.now (S.told out.new) }
    ensures looked { IfSome (S.told out.old) OnlyLooked → IfSome (S.told out.new) OnlyLooked }
    ensures locked { IfOk result (λ yes. yes ≡ true → IfSome (S.told out.new) (λ steps. LockedThen number request.now steps [])) }
    ensures free { IfOk result (λ yes. yes ≡ false → IfSome (S.told out.new) (λ steps. NotLocked number request.now steps)) }
    ensures stopped { IsStopped number request.now result (S.told out.new) }
{
    let lock = look(out, number, request, request.lock.bytes())?;
    let beside = look(out, number, request, request.beside.bytes())?;
    Ok(holds(number, lock, beside))
}

// Takes away what was made for the caller, if it stands.
fn clear<S: Spool>(out: &mut S, number: u32, request: &Request, name: &[u8]) -> Result<(), Stop>
    requires clears { Clears request.now.operation request.now name.now }
    requires after { IfSome (S.told out.old) (λ steps. ClearsAfter request.now.operation number request.now steps) }
    ensures keeps { Sound number request.now (S.told out.old) → Sound number request.now (S.told out.new) }
    ensures gone { OnOk result (IfSome (S.told out.new) (λ steps. GoneThen name.now [] steps)) }
    ensures onward { Onward (S.told out.old) (S.told out.new) }
    ensures input { IfSome (S.told out.old) HasInput → IfSome (S.told out.new) HasInput }
    ensures stopped { IsStopped number request.now result (S.told out.new) }
{
    match look(out, number, request, name)? {
        Seen::Nothing => Ok(()),
        seen => {
            if is_own(number, seen) {
                remove(out, number, request, name)
            } else {
                Err(Stop::Refused)
            }
        }
    }
}

fn lock<S: Spool>(out: &mut S, number: u32, request: &Request) -> Result<bool, Stop>
    requires locks { request.now.operation ≡ op.Lock }
    requires looked { IfSome (S.told out.old) OnlyLooked }
    ensures keeps { Sound number request.now (S.told out.old) → Sound number request.now (S.told out.new) }
    ensures ended { Ended op.Lock number request.now result (S.told out.new) }
{
    if has_locked(out, number, request)? {
        return Ok(false);
    }
    clear(out, number, request, request.beside.bytes())?;
    make(out, number, request)?;
    if link(out, number, request)? {
        sync(out, number, request)?;
        Ok(true)
    } else {
        clear(out, number, request, request.beside.bytes())?;
        Ok(false)
    }
}

// Takes the lock away, if it is the caller's by the token.
fn release<S: Spool>(out: &mut S, number: u32, request: &Request) -> Result<(), Stop>
    requires { request.now.operation ≡ op.Unlock }
    ensures keeps { Sound number request.now (S.told out.old) → Sound number request.now (S.told out.new) }
    ensures done { OnOk result (IfSome (S.told out.new) (λ steps. Unlocks number request.now steps)) }
    ensures stopped { IsStopped number request.now result (S.told out.new) }
{
    if has_locked(out, number, request)? {
        remove(out, number, request, request.lock.bytes())
    } else {
        Ok(())
    }
}

fn unlock<S: Spool>(out: &mut S, number: u32, request: &Request) -> Result<bool, Stop>
    requires { request.now.operation ≡ op.Unlock }
    ensures keeps { Sound number request.now (S.told out.old) → Sound number request.now (S.told out.new) }
    ensures ended { Ended op.Unlock number request.now result (S.told out.new) }
{
    release(out, number, request)?;
    clear(out, number, request, request.beside.bytes())?;
    sync(out, number, request)?;
    Ok(true)
}

// The mode of what is to take the place of the mailbox.
fn mode_to_take<S: Spool>(out: &mut S, number: u32, request: &Request) -> Result<u32, Stop>
    requires stages { request.now.operation ≡ op.Stage }
    requires gone { IfSome (S.told out.old) (λ steps. GoneThen request.now.staged [] steps) }
    requires locked { IfSome (S.told out.old) (λ steps. Once (λ front. LockedThen number request.now front []) steps) }
    ensures keeps { Sound number request.now (S.told out.old) → Sound number request.now (S.told out.new) }
    ensures input { IfSome (S.told out.old) HasInput → IfSome (S.told out.new) HasInput }
    ensures mode { IfOk result (λ mode. IfSome (S.told out.new) (λ steps. MayTake number request.now steps mode)) }
    ensures stopped { IsStopped number request.now result (S.told out.new) }
{
    match look(out, number, request, request.mailbox.bytes())? {
        Seen::Nothing => Ok(NEW_MODE),
        Seen::File(found) if found.owner == number => Ok(found.mode),
        _ => Err(Stop::Refused),
    }
}

fn stage<S: Spool>(out: &mut S, number: u32, request: &Request) -> Result<bool, Stop>
    requires stages { request.now.operation ≡ op.Stage }
    requires looked { IfSome (S.told out.old) OnlyLooked }
    ensures keeps { Sound number request.now (S.told out.old) → Sound number request.now (S.told out.new) }
    ensures ended { Ended op.Stage number request.now result (S.told out.new) }
{
    if !has_locked(out, number, request)? {
        return Err(Stop::Refused);
    }
    clear(out, number, request, request.staged.bytes())?;
    let mode = mode_to_take(out, number, request)?;
    take(out, number, request, mode)?;
    sync(out, number, request)?;
    Ok(true)
}

// Whether something is staged that may take the place of the mailbox: then both were looked at under the lock.
fn may_replace<S: Spool>(out: &mut S, number: u32, request: &Request) -> Result<bool, Stop>
    requires publishes { request.now.operation ≡ op.Publish }
    requires looked { IfSome (S.told out.old) OnlyLooked }
    ensures keeps { Sound number request.now (S.told out.old) → Sound number request.now (S.told out.new) }
    ensures may { IfOk result (λ yes. yes ≡ true → IfSome (S.told out.new) (λ steps. MayReplace number request.now steps)) }
    ensures stands { IfOk result
        (λ yes. yes ≡ false → IfSome (S.told out.new) (λ steps. StandsAt op.Publish number request.now steps)) }
    ensures stopped { IsStoppedAt op.Publish number request.now result (S.told out.new) }
{
    if !has_locked(out, number, request)? {
        return Err(Stop::Refused);
    }
    let mailbox = look(out, number, request, request.mailbox.bytes())?;
    if !is_free(number, mailbox) {
        return Err(Stop::Refused);
    }
    match look(out, number, request, request.staged.bytes())? {
        Seen::Nothing => Ok(false),
        staged => {
            if is_own(number, staged) {
                Ok(true)
            } else {
                Err(Stop::Refused)
            }
        }
    }
}

fn publish<S: Spool>(out: &mut S, number: u32, request: &Request) -> Result<bool, Stop>
    requires publishes { request.now.operation ≡ op.Publish }
    requires looked { IfSome (S.told out.old) OnlyLooked }
    ensures keeps { Sound number request.now (S.told out.old) → Sound number request.now (S.told out.new) }
    ensures ended { Ended op.Publish number request.now result (S.told out.new) }
{
    if !may_replace(out, number, request)? {
        return Ok(false);
    }
    rename(out, number, request)?;
    sync(out, number, request)?;
    Ok(true)
}

// Takes the mailbox away, if it stands.
fn erase_locked<S: Spool>(out: &mut S, number: u32, request: &Request) -> Result<(), Stop>
    requires erases { request.now.operation ≡ op.Erase }
    requires locked { IfSome (S.told out.old) (λ steps. LockedThen number request.now steps []) }
    ensures keeps { Sound number request.now (S.told out.old) → Sound number request.now (S.told out.new) }
    ensures gone { OnOk result (IfSome (S.told out.new) (λ steps. GoneThen request.now.mailbox [] steps)) }
    ensures stopped { IsStopped number request.now result (S.told out.new) }
{
    match look(out, number, request, request.mailbox.bytes())? {
        Seen::Nothing => Ok(()),
        seen => {
            if is_own(number, seen) {
                remove(out, number, request, request.mailbox.bytes())
            } else {
                Err(Stop::Refused)
            }
        }
    }
}

fn erase<S: Spool>(out: &mut S, number: u32, request: &Request) -> Result<bool, Stop>
    requires { request.now.operation ≡ op.Erase }
    ensures keeps { Sound number request.now (S.told out.old) → Sound number request.now (S.told out.new) }
    ensures ended { Ended op.Erase number request.now result (S.told out.new) }
{
    if !has_locked(out, number, request)? {
        return Err(Stop::Refused);
    }
    erase_locked(out, number, request)?;
    sync(out, number, request)?;
    Ok(true)
}

fn discard<S: Spool>(out: &mut S, number: u32, request: &Request) -> Result<bool, Stop>
    requires { request.now.operation ≡ op.Discard }
    ensures keeps { Sound number request.now (S.told out.old) → Sound number request.now (S.told out.new) }
    ensures ended { Ended op.Discard number request.now result (S.told out.new) }
{
    if !has_locked(out, number, request)? {
        return Err(Stop::Refused);
    }
    clear(out, number, request, request.staged.bytes())?;
    sync(out, number, request)?;
    Ok(true)
}

/// Carries out what is asked for. False if a lock stands, or nothing was staged.
pub(crate) fn carry_out<S: Spool>(out: &mut S, number: u32, request: &Request) -> Result<bool, Stop>
    requires { IfSome (S.told out.old) OnlyLooked }
    ensures keeps { Sound number request.now (S.told out.old) → Sound number request.now (S.told out.new) }
    ensures ended { Ended request.now.operation number request.now result (S.told out.new) }
{
    match request.operation {
        Operation::Lock => lock(out, number, request),
        Operation::Unlock => unlock(out, number, request),
        Operation::Stage => stage(out, number, request),
        Operation::Publish => publish(out, number, request),
        Operation::Erase => erase(out, number, request),
        Operation::Discard => discard(out, number, request),
    }
}
