// A message that is begun to names.
ghost use Rattle.std.specs.Prelude.{◌≡◌, IfOk};
ghost use Rattle.command_desk.specs.Answers.{Means};
ghost use Rattle.command_desk.specs.Desks.{IsWithin};
ghost use Rattle.draft_commands.specs.Mailing.{writer, draft_to, drafting, mail};

use command_desk::{Ask, Desk, Refusal, Steps, copies, fault, unchanged};
use draft_text::Draft;
use mail_text::{Items, Memory, Text};
use std::alloc::Global;

/// Who writes messages: the value of the variable `from`, and nothing if it is unset.
pub fn writer(alloc: Global, desk: &Desk) -> Result<Text, Memory>
    ensures { IfOk result (λ t. t ≡ writer desk.now) }
{
    match desk.vars.get(b"from") {
        Some(value) => Text::copy(alloc, value),
        None => Ok(Text::new(alloc)),
    }
}

// A draft to these names, with who writes it and nothing else.
fn draft_to(alloc: Global, desk: &Desk, names: &[Text]) -> Result<Draft, Memory>
    ensures { IfOk result (λ draft. draft ≡ draft_to desk.now names.now) }
{
    Ok(Draft {
        to: copies(alloc, names)?,
        cc: Items::new(alloc),
        bcc: Items::new(alloc),
        subject: Text::new(alloc),
        from: writer(alloc, desk)?,
        reply: Text::new(alloc),
        references: Items::new(alloc),
        body: Text::new(alloc),
    })
}

/// This draft is asked for, which is recorded in this file if there is one, and before which this message becomes
/// current if there is one.
pub(crate) fn drafting(
    alloc: Global,
    draft: Draft,
    file: Option<Text>,
    current: Option<u32>,
) -> Result<Steps, Memory>
    ensures { IfOk result (λ steps. steps ≡ drafting draft file current) }
{
    let mut asks = Items::new(alloc);
    asks.push(Ask::Draft {
        draft,
        file,
        current,
    })?;
    Ok(Steps {
        asks,
        effects: unchanged(alloc),
    })
}

/// `mail`: a message is begun to the names that its words are, from the value of the variable `from`; it has nothing
/// else yet. Refused is no word.
pub fn mail(alloc: Global, desk: &Desk, words: &[Text]) -> Result<Steps, Refusal>
    ensures means { Means result (mail desk.now words.now) }
    ensures within { IsWithin desk.now result }
{
    if words.is_empty() {
        return Err(fault(alloc, b"mail", b": bad arguments"));
    }
    let draft = draft_to(alloc, desk, words)?;
    Ok(drafting(alloc, draft, None, None)?)
}
