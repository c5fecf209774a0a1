// One call of the helper.
ghost use Rattle.std.specs.Prelude.{◌≡◌, None, Some, true, false, IfSome, IfOk, IfErr};
ghost use Rattle.spool_rules.specs.Told.{IsFresh};
ghost use Rattle.spool_rules.specs.Words.{request_of};
ghost use Rattle.spool_rules.specs.Lawful.{IsKnown, IsLawful};
ghost use Rattle.spool_rules.specs.Causes.{Explains, Failed, IsForeign};
ghost use Rattle.spool_rules.specs.declared.status.SpoolStatus.TheVariants as status;
ghost use Rattle.spool_rules.specs.declared.words.Request.{Request};

use crate::operations::carry_out;
use crate::port::{Spool, Stop};
use crate::status::{SpoolStatus, status_of};
use crate::users::is_callers;
use crate::words::{Request, request_of};
use mail_text::Text;
use std::alloc::Global;

// Whether the mailbox of a request is that of the user of this number.
fn knows<S: Spool>(alloc: Global, number: u32, request: &Request, out: &mut S) -> Result<bool, Stop>
    requires { IsFresh (S.told out.old) }
    ensures lawful { IfSome (S.told out.new) (λ steps. IsLawful number request.now steps) }
    ensures known { IfOk result (λ is. is ≡ true → IfSome (S.told out.new) (λ steps. IsKnown number request.now steps)) }
    ensures foreign { IfOk result (λ is. is ≡ false → IfSome (S.told out.new) (λ steps. IsForeign number request.now steps)) }
    ensures failed { IfErr result (λ why. IfSome (S.told out.new) (λ steps. Failed why steps)) }
{
    let list = out.users(alloc)?;
    Ok(is_callers(list.bytes(), number, request))
}

// Carries out what the user of this number asks for, while no other run holds the other name of the lock.
fn serve_own<S: Spool>(number: u32, request: &Request, out: &mut S) -> SpoolStatus
    requires { IfSome (S.told out.old) (λ steps. IsKnown number request.now steps) }
    ensures lawful { IfSome (S.told out.new) (λ steps. IsLawful number request.now steps) }
    ensures explained { IfSome (S.told out.new) (λ steps. Explains number request.now result steps) }
{
    match out.hold(request.beside.bytes()) {
        Ok(()) => status_of(carry_out(out, number, request)),
        Err(stop) => status_of(Err(stop)),
    }
}

// Carries out what the user of this number asks for, if the mailbox is his.
fn serve<S: Spool>(alloc: Global, number: u32, request: &Request, out: &mut S) -> SpoolStatus
    requires { IsFresh (S.told out.old) }
    ensures lawful { IfSome (S.told out.new) (λ steps. IsLawful number request.now steps) }
    ensures explained { IfSome (S.told out.new) (λ steps. Explains number request.now result steps) }
{
    match knows(alloc, number, request, out) {
        Ok(true) => serve_own(number, request, out),
        Ok(false) => SpoolStatus::NotCallers,
        Err(stop) => status_of(Err(stop)),
    }
}

/// Does what the words ask for, for the user of this number.
pub fn run<S: Spool>(alloc: Global, number: u32, words: &[Text], out: &mut S) -> SpoolStatus
    requires { IsFresh (S.told out.old) }
    // Words that aren't understood are refused before any call.
    ensures refused { request_of words.now ≡ None → (result ≡ status.Usage) × (out.new ≡ out.old) }
    // Each call is about the caller's mailbox, its lock or a staged name of it, is the operation's, and comes where it may.
    ensures lawful { (request : Request) → request_of words.now ≡ Some request
        → IfSome (S.told out.new) (λ steps. IsLawful number request steps) }
    // Status 0 says that it was done, and made to last; each other what kept it from being done.
    ensures explained { (request : Request) → request_of words.now ≡ Some request
        → IfSome (S.told out.new) (λ steps. Explains number request result steps) }
{
    match request_of(alloc, words) {
        Ok(Some(request)) => serve(alloc, number, &request, out),
        Ok(None) => SpoolStatus::Usage,
        Err(_) => SpoolStatus::Memory,
    }
}
