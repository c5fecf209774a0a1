// The lines that say why a draft isn't sent.
ghost use Rattle.std.specs.Prelude.{◌≡◌, IfOk};
ghost use Rattle.send_rules.specs.Lines.{names_line, names_refused, not_an_address, sender_ended, sender_not_run, too_many_recipients};

use itoa::Buffer;
use mail_text::{Memory, Text};
use sender_port::{NamesFault, names_fault};
use std::alloc::Global;

/// There are more recipients than a draft may have.
pub fn too_many_recipients() -> &'static [u8]
    ensures { result.now ≡ too_many_recipients }
{
    b"too many recipients\n"
}

/// The sender could not be run.
pub fn sender_not_run() -> &'static [u8]
    ensures { result.now ≡ sender_not_run }
{
    b"sender could not be run\n"
}

/// The sender ended with this status.
pub fn sender_ended(alloc: Global, status: i32) -> Result<Text, Memory>
    ensures { IfOk result (λ line. line ≡ sender_ended status) }
{
    let mut buffer = Buffer::new();
    let mut line = Text::copy(alloc, b"sender ended with ")?;
    line.push(buffer.format(status).as_bytes())?;
    line.push(b"\n")?;
    Ok(line)
}

// The name can't be given to the sender.
fn not_an_address(name: Text) -> Result<Text, Memory>
    ensures { IfOk result (λ line. line ≡ not_an_address name) }
{
    let mut line = name;
    line.push(b": not an address")?;
    line.push(b"\n")?;
    Ok(line)
}

// The line of what is wrong with names.
fn names_line(alloc: Global, fault: NamesFault) -> Result<Text, Memory>
    ensures { IfOk result (λ line. line ≡ names_line fault) }
{
    match fault {
        NamesFault::NoRecipients => Text::copy(alloc, b"no recipients\n"),
        NamesFault::NotAnAddress { name } => not_an_address(name),
    }
}

/// The line that refuses names: `no recipients` if there is none, or the first that is no address. None if mail
/// can be sent to them.
pub fn names_refused(alloc: Global, names: &[Text]) -> Result<Option<Text>, Memory>
    ensures { IfOk result (λ line. line ≡ names_refused names.now) }
{
    match names_fault(alloc, names)? {
        Some(fault) => Ok(Some(names_line(alloc, fault)?)),
        None => Ok(None),
    }
}
