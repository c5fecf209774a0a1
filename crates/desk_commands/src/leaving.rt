// Commands that say what becomes of messages as the folder is left.
ghost use Rattle.command_desk.specs.Answers.{Means};
ghost use Rattle.command_desk.specs.Desks.{IsDesk, IsWithin};
ghost use Rattle.desk_commands.specs.Leaving.{mark, hold, mbox, touch};

use command_desk::{Desk, Refusal, Steps, chosen, effects_alone, marked_and_written};
use mail_text::Text;
use message_list::Purpose;
use message_state::Act;
use std::alloc::Global;

// Does an act on the selected messages; the last of them is current, and counts as written.
fn mark(alloc: Global, act: Act, desk: &Desk, words: &[Text]) -> Result<Steps, Refusal>
    requires { IsDesk desk.now }
    ensures means { Means result (mark act desk.now words.now) }
    ensures within { IsWithin desk.now result }
{
    let numbers = chosen(alloc, words, desk, Purpose::Live)?;
    let effects = marked_and_written(alloc, act, numbers.items())?;
    Ok(effects_alone(alloc, effects))
}

/// `hold`, `preserve`: messages that stay in the system mailbox as it is left.
pub fn hold(alloc: Global, desk: &Desk, words: &[Text]) -> Result<Steps, Refusal>
    requires { IsDesk desk.now }
    ensures means { Means result (hold desk.now words.now) }
    ensures within { IsWithin desk.now result }
{
    mark(alloc, Act::Hold, desk, words)
}

/// `mbox`: messages that go to mbox as the system mailbox is left.
pub fn mbox(alloc: Global, desk: &Desk, words: &[Text]) -> Result<Steps, Refusal>
    requires { IsDesk desk.now }
    ensures means { Means result (mbox desk.now words.now) }
    ensures within { IsWithin desk.now result }
{
    mark(alloc, Act::Mbox, desk, words)
}

/// `touch`: as `mbox`, but messages that were saved leave all the same.
pub fn touch(alloc: Global, desk: &Desk, words: &[Text]) -> Result<Steps, Refusal>
    requires { IsDesk desk.now }
    ensures means { Means result (touch desk.now words.now) }
    ensures within { IsWithin desk.now result }
{
    mark(alloc, Act::Touch, desk, words)
}
