// Commands that set and clear the flags of messages.
ghost use Rattle.command_desk.specs.Answers.{Means};
ghost use Rattle.command_desk.specs.Desks.{IsDesk, IsWithin};
ghost use Rattle.desk_commands.specs.Flagging.{flagging};

use command_desk::{Desk, Refusal, Steps, chosen, effects_alone, marked};
use mail_text::Text;
use message_list::Purpose;
use message_state::Act;
use std::alloc::Global;

/// `flag`, `unflag`, `answered`, `unanswered`, `draft`, `undraft`: does the act on the selected messages, of which the
/// last becomes current. Nothing is printed.
pub fn flagging(alloc: Global, act: Act, desk: &Desk, words: &[Text]) -> Result<Steps, Refusal>
    requires { IsDesk desk.now }
    ensures means { Means result (flagging act desk.now words.now) }
    ensures within { IsWithin desk.now result }
{
    let numbers = chosen(alloc, words, desk, Purpose::Live)?;
    let effects = marked(alloc, desk, act, numbers.items())?;
    Ok(effects_alone(alloc, effects))
}
