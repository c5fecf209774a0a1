// Conditions: `if`, `else` and `endif`.
ghost use Rattle.std.specs.Prelude.{◌≡◌, Ok, Err, codes};
ghost use Rattle.command_desk.specs.Answers.{Means, IsRefusal};
ghost use Rattle.command_desk.specs.Desks.{IsWithin};
ghost use Rattle.rc_conditionals.specs.Turns.{IsConditionWord};
ghost use Rattle.desk_commands.specs.Conditions.{condition_fault, turns, turning, opening, turning_alone, condition};

use command_desk::{Desk, Effects, Refusal, Steps, effects_alone, fault, unchanged};
use mail_text::Text;
use rc_conditionals::{CondError, Conditions};
use std::alloc::Global;

// The refusal of a condition, whose test this is.
fn refusal(alloc: Global, test: &[u8], error: CondError) -> Refusal
    ensures { IsRefusal result (condition_fault test.now error) }
{
    match error {
        CondError::TooDeep => fault(alloc, b"", b"conditions nest too deep"),
        CondError::ElseWithoutIf => fault(alloc, b"", b"else without if"),
        CondError::EndWithoutIf => fault(alloc, b"", b"endif without if"),
        CondError::BadTest => fault(alloc, test, b": bad condition"),
    }
}

// These conditions are open then.
fn turns(alloc: Global, conditions: Conditions) -> Effects
    ensures { result ≡ turns conditions }
{
    Effects {
        conditions: Some(conditions),
        ..unchanged(alloc)
    }
}

// Opens a condition, turns it round or closes it.
fn turning(alloc: Global, desk: &Desk, name: &[u8], test: &[u8]) -> Result<Steps, Refusal>
    requires { IsConditionWord name.now }
    ensures means { Means result (turning desk.now name.now test.now) }
    ensures within { IsWithin desk.now result }
{
    let mut conditions = desk.conditions.copy();
    match conditions.turn(name, test, desk.mode, desk.terminal) {
        Ok(()) => Ok(effects_alone(alloc, turns(alloc, conditions))),
        Err(error) => Err(refusal(alloc, test, error)),
    }
}

// `if`.
fn opening(alloc: Global, desk: &Desk, words: &[Text]) -> Result<Steps, Refusal>
    ensures means { Means result (opening desk.now words.now) }
    ensures within { IsWithin desk.now result }
{
    match words {
        [test] => turning(alloc, desk, b"if", test.bytes()),
        _ => Err(fault(alloc, b"if", b": bad arguments")),
    }
}

// `else` and `endif`.
fn turning_alone(alloc: Global, desk: &Desk, name: &[u8], words: &[Text]) -> Result<Steps, Refusal>
    requires { IsConditionWord name.now }
    ensures means { Means result (turning_alone desk.now name.now words.now) }
    ensures within { IsWithin desk.now result }
{
    match words {
        [] => turning(alloc, desk, name, b""),
        _ => Err(fault(alloc, name, b": bad arguments")),
    }
}

/// `if`, `else` or `endif`, which `name` names: a condition is opened, turned round or closed. Refused are another
/// number of words, a test that is none of `s`, `r` and `t`, a condition inside of 16, and an `else` or `endif` that
/// has no `if`.
pub fn condition(alloc: Global, desk: &Desk, name: &[u8], words: &[Text]) -> Result<Steps, Refusal>
    ensures means { Means result (condition desk.now name.now words.now) }
    ensures within { IsWithin desk.now result }
{
    match name {
        b"if" => opening(alloc, desk, words),
        b"else" => turning_alone(alloc, desk, b"else", words),
        _ => turning_alone(alloc, desk, b"endif", words),
    }
}
