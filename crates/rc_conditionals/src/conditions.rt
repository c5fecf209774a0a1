ghost use Rattle.std.specs.Prelude.{◌≡◌, ◌≤◌, [], length, take, codes, OnOk, OnErr, MatchResult, Ok, Err};
ghost use Rattle.rc_conditionals.specs.Turns.{IsConditionWord, is_live, test_of, opened, turned_else, closed, turned};

use crate::CondError;
use arrayvec::ArrayVec;
use std::marker::Model;

/// What the program does: it sends a message, or it reads a folder.
#[derive(Clone, Copy, Debug, PartialEq, Eq)]
pub enum Mode {
    /// Send mode.
    Send,
    /// Receive mode.
    Receive,
}

/// An open condition.
#[derive(Clone, Copy, Debug, Default, PartialEq, Eq)]
pub struct Condition {
    /// Whether the lines that follow are to be carried out, as far as this condition goes.
    pub holds: bool,
    /// Whether it has had its else.
    pub had_else: bool,
}

/// The most conditions that are open at once.
const MOST_OPEN: usize = 16;

/// The open conditions, outermost first. Contracts see the list of them.
#[derive(Drop)]
pub struct Conditions {
    open: ArrayVec<Condition, 16>,
}

impl Model for Conditions {
    ghost use Rattle.std.specs.Prelude.{List};
    ghost use Rattle.rc_conditionals.specs.declared.conditions.Condition.{Condition};

    ghost Value = { List Condition };

    ghost view = { λ c. c.open.items };
}

// Whether the test of an `if` holds; None if it is no test.
fn test_of(test: &[u8], mode: Mode, terminal: bool) -> Option<bool>
    ensures { result ≡ test_of test.now mode terminal }
{
    match test {
        b"s" => Some(mode == Mode::Send),
        b"r" => Some(mode == Mode::Receive),
        b"t" => Some(terminal),
        _ => None,
    }
}

impl Conditions {
    /// No open condition.
    pub fn new() -> Conditions
        ensures { result ≡ [] }
    {
        Conditions {
            open: ArrayVec::new(),
        }
    }

    /// A copy of these conditions.
    pub fn copy(&self) -> Conditions
        ensures { result ≡ self.now }
    {
        let conditions = self.open.as_slice();
        let mut open = ArrayVec::new();
        for condition in conditions {
            open.push(*condition);
        }
        Conditions { open }
    }

    /// Whether lines are carried out: each open condition holds.
    pub fn live(&self) -> bool
        ensures { result ≡ is_live self.now }
    {
        self.open.as_slice().iter().all(|condition| condition.holds)
    }

    /// How many conditions are open: at most 16.
    pub fn depth(&self) -> usize
        ensures depth { result ≡ length self.now }
        ensures few { result ≤ 16 }
    {
        self.open.len()
    }

    /// Leaves only the outermost `depth` conditions open.
    pub fn cut(&mut self, depth: usize)
        requires { depth ≤ length self.old }
        ensures { self.new ≡ take depth self.old }
    {
        self.open.truncate(depth);
    }

    /// Carries out `if` with its test, `else` or `endif`, which `word` names. The tests are `s` for send mode, `r`
    /// for receive mode and `t` for a terminal. `BadTest` comes if the test of an `if` is none of these, else
    /// `TooDeep` if 16 conditions are open; `ElseWithoutIf` if none is open or the innermost has had its
    /// else; `EndWithoutIf` if none is open. After an error all is as before.
    pub fn turn(
        &mut self,
        word: &[u8],
        test: &[u8],
        mode: Mode,
        terminal: bool,
    ) -> Result<(), CondError>
        requires { IsConditionWord word.now }
        ensures turned { MatchResult result (λ _. turned word.now test.now mode terminal self.old ≡ Ok self.new)
            (λ e. turned word.now test.now mode terminal self.old ≡ Err e) }
        ensures err { OnErr result (self.new ≡ self.old) }
    {
        match word {
            b"if" => self.open(test, mode, terminal),
            b"else" => self.turn_else(),
            _ => self.close(),
        }
    }

    // Opens a condition.
    fn open(&mut self, test: &[u8], mode: Mode, terminal: bool) -> Result<(), CondError>
        ensures opened { MatchResult result (λ _. opened test.now mode terminal self.old ≡ Ok self.new)
            (λ e. opened test.now mode terminal self.old ≡ Err e) }
        ensures err { OnErr result (self.new ≡ self.old) }
    {
        let Some(holds) = test_of(test, mode, terminal) else {
            return Err(CondError::BadTest);
        };
        if self.open.len() >= MOST_OPEN {
            return Err(CondError::TooDeep);
        }
        self.open.push(Condition {
            holds,
            had_else: false,
        });
        Ok(())
    }

    // Turns the innermost condition round.
    fn turn_else(&mut self) -> Result<(), CondError>
        ensures turned { MatchResult result (λ _. turned_else self.old ≡ Ok self.new)
            (λ e. turned_else self.old ≡ Err e) }
        ensures err { OnErr result (self.new ≡ self.old) }
    {
        match self.open.as_slice().last() {
            Some(condition) if !condition.had_else => {
                let holds = !condition.holds;
                let outer = self.open.len() - 1;
                self.open.truncate(outer);
                self.open.push(Condition {
                    holds,
                    had_else: true,
                });
                Ok(())
            }
            _ => Err(CondError::ElseWithoutIf),
        }
    }

    // Closes the innermost condition.
    fn close(&mut self) -> Result<(), CondError>
        ensures closed { MatchResult result (λ _. closed self.old ≡ Ok self.new) (λ e. closed self.old ≡ Err e) }
        ensures err { OnErr result (self.new ≡ self.old) }
    {
        match self.open.pop() {
            Some(_) => Ok(()),
            None => Err(CondError::EndWithoutIf),
        }
    }
}
