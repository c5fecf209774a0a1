ghost use Rattle.std.specs.Prelude.{◌≡◌, ◌⊎◌, Err, None, IfOk, IfErr, MatchOption};
ghost use Rattle.host_port.specs.Ran.{Ran};
ghost use Rattle.session_play.specs.Play.{Play, Ask, Ret, Child, Goes};
ghost use Rattle.sender_port.specs.Names.{names_fault};
ghost use Rattle.sender_port.specs.Sending.{program_of, sender_args, sent, as_played, refused_names, IsOfSender, IsBounded, SendCause};

use crate::{SendError, names_fault};
use host_port::{ChildAnswer, Host};
use mail_text::{Items, Memory, Text};
use mailx_vars::Vars;
use session_play::run_child;
use std::alloc::Global;

// The program that takes mail: what the variable `sendmail` says, or its usual path if that is unset or empty.
fn program_of(vars: &Vars) -> &[u8]
    ensures { result.now ≡ program_of vars.now }
{
    match vars.get(b"sendmail") {
        Some([]) | None => b"/usr/lib/sendmail",
        Some(program) => program,
    }
}

// Its arguments.
fn sender_args(alloc: Global, names: &[Text]) -> Result<Items<Text>, Memory>
    ensures { IfOk result (λ args. args ≡ sender_args names.now) }
{
    let mut args = Items::new(alloc);
    args.push(Text::copy(alloc, b"-i")?)?;
    for name in names {
        args.push(Text::copy(alloc, name.bytes())?)?;
    }
    Ok(args)
}

// What its answer means.
fn sent(answer: Option<ChildAnswer>) -> Result<Text, SendError>
    ensures { result ≡ sent answer }
{
    match answer {
        Some(ChildAnswer { status, output, .. }) => {
            if status == 0 {
                Ok(output)
            } else {
                Err(SendError::Refused { status, output })
            }
        }
        None => Err(SendError::Child),
    }
}

/// Sends a message to names: runs the sender with the arguments `-i` and the names, and the message as its input.
/// Answers what it wrote. Names that can't be sent to are refused before anything is done. `Refused` comes exactly
/// if the sender ends with another status than 0, and `Child` if it could not be run.
pub fn send<H: Host>(
    alloc: Global,
    vars: &Vars,
    names: &[Text],
    message: &[u8],
    host: &mut H,
) -> Result<Text, SendError>
    ensures names { MatchOption (names_fault names.now) (IfErr result IsOfSender)
        (λ fault. (result ≡ Err (refused_names fault)) ⊎ (result ≡ Err SendError.Memory)) }
    ensures unasked { MatchOption (names_fault names.now) Unit (λ fault. host.new ≡ host.old) }
    ensures ran { names_fault names.now ≡ None → Ran H.world host.old host.new
        (λ es. Goes (Ask (Child (program_of vars.now) (sender_args names.now) message.now)
        (λ answer. Ret (sent answer))) es (as_played result)) }
    ensures cause { SendCause (H.world.counts host.old) (H.world.counts host.new) result }
    ensures bound { IsBounded result }
{
    match names_fault(alloc, names) {
        Ok(None) => {}
        Ok(Some(fault)) => return Err(fault.into()),
        Err(Memory) => return Err(SendError::Memory),
    }
    let args = match sender_args(alloc, names) {
        Ok(args) => args,
        Err(Memory) => return Err(SendError::Memory),
    };
    match run_child(alloc, host, program_of(vars), args.items(), message) {
        Ok(answer) => sent(answer),
        Err(_) => Err(SendError::Memory),
    }
}
