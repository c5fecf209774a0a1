// The calls of the outside, each where it may be made.
ghost use Rattle.std.specs.Prelude.{◌≡◌, [], ◌∷◌, Ok, IfSome};
ghost use Rattle.spool_rules.specs.declared.port.Step.TheVariants.{Look, Make, Take, Link, Rename, Remove, Sync};
ghost use Rattle.spool_rules.specs.Told.{added, EndsWith, HasInput, OnlyLooked};
ghost use Rattle.spool_rules.specs.declared.words.Operation.TheVariants as op;
ghost use Rattle.spool_rules.specs.Lawful.{GoneThen, IsNameOf, MayRemove, MayReplace, MayTake, Sound};

use crate::port::{Seen, Spool, Stop};
use crate::words::Request;

/// What stands at one of the names of a request.
pub(crate) fn look<S: Spool>(
    out: &mut S,
    number: u32,
    request: &Request,
    name: &[u8],
) -> Result<Seen, Stop>
    requires { IsNameOf request.now name.now }
    ensures told { S.told out.new ≡ added (S.told out.old) (Look name.now result) }
    ensures keeps { Sound number request.now (S.told out.old) → Sound number request.now (S.told out.new) }
    ensures looked { IfSome (S.told out.old) OnlyLooked → IfSome (S.told out.new) OnlyLooked }
{
    out.look(name)
}

/// Makes the file that becomes the lock.
pub(crate) fn make<S: Spool>(out: &mut S, number: u32, request: &Request) -> Result<(), Stop>
    requires locks { request.now.operation ≡ op.Lock }
    requires gone { IfSome (S.told out.old) (λ steps. GoneThen request.now.beside [] steps) }
    ensures told { S.told out.new ≡ added (S.told out.old) (Make request.now.beside request.now.token result) }
    ensures keeps { Sound number request.now (S.told out.old) → Sound number request.now (S.told out.new) }
{
    out.make(request.beside.bytes(), request.token.bytes())
}

/// Makes the file that is staged, of the bytes of the input.
pub(crate) fn take<S: Spool>(
    out: &mut S,
    number: u32,
    request: &Request,
    mode: u32,
) -> Result<(), Stop>
    requires stages { request.now.operation ≡ op.Stage }
    requires input { IfSome (S.told out.old) HasInput }
    requires may { IfSome (S.told out.old) (λ steps. MayTake number request.now steps mode) }
    ensures told { S.told out.new ≡ added (S.told out.old) (Take request.now.staged mode result) }
    ensures keeps { Sound number request.now (S.told out.old) → Sound number request.now (S.told out.new) }
{
    out.take(request.staged.bytes(), mode)
}

/// Puts the lock.
pub(crate) fn link<S: Spool>(out: &mut S, number: u32, request: &Request) -> Result<bool, Stop>
    requires { IfSome (S.told out.old) (λ steps. EndsWith steps (Make request.now.beside request.now.token (Ok tt) ∷ [])) }
    ensures told { S.told out.new ≡ added (S.told out.old) (Link request.now.beside request.now.lock result) }
    ensures keeps { Sound number request.now (S.told out.old) → Sound number request.now (S.told out.new) }
{
    out.link(request.beside.bytes(), request.lock.bytes())
}

/// Puts what was staged in the place of the mailbox.
pub(crate) fn rename<S: Spool>(out: &mut S, number: u32, request: &Request) -> Result<(), Stop>
    requires publishes { request.now.operation ≡ op.Publish }
    requires may { IfSome (S.told out.old) (λ steps. MayReplace number request.now steps) }
    ensures told { S.told out.new ≡ added (S.told out.old) (Rename request.now.staged request.now.mailbox result) }
    ensures keeps { Sound number request.now (S.told out.old) → Sound number request.now (S.told out.new) }
{
    out.rename(request.staged.bytes(), request.mailbox.bytes())
}

/// Takes a name away.
pub(crate) fn remove<S: Spool>(
    out: &mut S,
    number: u32,
    request: &Request,
    name: &[u8],
) -> Result<(), Stop>
    requires { IfSome (S.told out.old) (λ steps. MayRemove number request.now steps name.now) }
    ensures told { S.told out.new ≡ added (S.told out.old) (Remove name.now result) }
    ensures keeps { Sound number request.now (S.told out.old) → Sound number request.now (S.told out.new) }
{
    out.remove(name)
}

/// Makes last what was done.
pub(crate) fn sync<S: Spool>(out: &mut S, number: u32, request: &Request) -> Result<(), Stop>
    ensures told { S.told out.new ≡ added (S.told out.old) (Sync result) }
    ensures keeps { Sound number request.now (S.told out.old) → Sound number request.now (S.told out.new) }
{
    out.sync()
}
