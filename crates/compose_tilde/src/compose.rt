ghost use Rattle.std.specs.Prelude.{◌≡◌, true, false, is_some, None, IfOk, OnErr};
ghost use Rattle.draft_text.specs.DraftLaws.{HasFlatParts};
ghost use Rattle.compose_tilde.specs.Views.{view_of, IsView};
ghost use Rattle.compose_tilde.specs.Steps.{Means};
ghost use Rattle.compose_tilde.specs.Lines.{asks_subject, line_step};
ghost use Rattle.compose_tilde.specs.Laws.{IsWaiting};
ghost use Rattle.compose_tilde.specs.Answering.{is_waited_for, new_machine, idle, answer_step};

use crate::answers::{answer_step, is_awaited};
use crate::line::{asks_subject, line_step};
use crate::machine::Machine;
use crate::need::{Answer, ComposeError, Need};
use crate::view::ComposeView;
use draft_text::Draft;
use std::alloc::Global;
use std::marker::Model;

/// A draft that is being written, as a machine that takes lines and answers. Contracts see its draft, whether it has
/// taken a line, what it waits for, and the value that `~h` asks for next. No part of the draft but its body holds a
/// line feed.
#[derive(Drop)]
pub struct Compose {
    alloc: Global,
    machine: Machine,
}

impl Model for Compose {
    ghost use Rattle.compose_tilde.specs.declared.machine.Machine.{Machine};
    ghost use Rattle.draft_text.specs.DraftLaws.{HasFlatParts};

    ghost Value = { Machine };

    ghost view = { λ c. c.machine };

    ghost invariant = { λ c. HasFlatParts c.machine.draft };
}

impl Compose {
    /// The machine of a draft, which has taken no line and waits for nothing. No part of the draft but its body is to
    /// hold a line feed. It takes no memory.
    pub fn new(alloc: Global, draft: Draft) -> Compose
        requires { HasFlatParts draft }
        ensures { result ≡ new_machine draft }
    {
        Compose {
            alloc,
            machine: Machine {
                draft,
                taken: false,
                waits: None,
                header: None,
            },
        }
    }

    /// The draft. No part of it but its body holds a line feed.
    pub fn draft(&self) -> &Draft
        ensures draft { result.now ≡ self.now.draft }
        ensures flat { HasFlatParts self.now.draft }
    {
        &self.machine.draft
    }

    /// The draft, which is written no further.
    pub fn into_draft(self) -> Draft
        ensures draft { result ≡ self.draft }
        ensures flat { HasFlatParts self.draft }
    {
        let Compose { alloc: _, machine } = self;
        let Machine {
            draft,
            taken: _,
            waits: _,
            header: _,
        } = machine;
        draft
    }

    /// Whether it waits for an answer: after `Load`, `Dead`, `Child`, `Edit`, `Command` or `Put`.
    pub fn waiting(&self) -> bool
        ensures waiting { result ≡ is_some self.now.waits }
        ensures idle { result ≡ false → self.now.waits ≡ None }
    {
        self.machine.waits.is_some()
    }

    /// Whether it waits for such an answer. It takes no memory.
    pub fn waits_for(&self, answer: &Answer) -> bool
        ensures { result ≡ is_waited_for self.now.waits answer.now }
    {
        match &self.machine.waits {
            Some(wait) => is_awaited(*wait, answer),
            None => false,
        }
    }

    /// Whether the next line is the subject, so that `Subject: ` is to be printed first: no line was taken yet, `~h`
    /// asks for no value, the input is a terminal, `asksub` is set, and the draft has no subject.
    pub fn asks_subject(&self, view: &ComposeView<'_>) -> bool
        ensures { result ≡ asks_subject self.now (view_of view.now) }
    {
        asks_subject(&self.machine, view)
    }

    /// Takes a line, which is without its line feed: the value that `~h` asks for, the subject that the terminal is
    /// asked for, the end of the draft, an escape (POSIX mailx, "Command Escapes in mailx"), or a line of the body. It
    /// answers what is needed next. `Unknown` comes exactly when the letter of an escape stands for none,
    /// `BadArguments` exactly when the escape doesn't take what stands after its letter, or a quote isn't closed,
    /// `NotSending` exactly at a command of a session in send mode, and `List` exactly when the words of an escape
    /// select no messages. After an error, which may be that memory ran out, the machine is as before.
    pub fn line(&mut self, line: &[u8], view: &ComposeView<'_>) -> Result<Need, ComposeError>
        requires idle { self.old.waits ≡ None }
        requires valid { IsView (view_of view.now) }
        ensures means { Means result self.new (line_step self.old line.now (view_of view.now)) }
        ensures waits { IfOk result (λ need. IsWaiting self.new.waits need) }
        ensures stays { OnErr result (self.new ≡ self.old) }
    {
        line_step(self.alloc, &mut self.machine, line, view)
    }

    /// Takes the answer to what was needed, which ends the waiting, and answers what is needed next. `TooMuch` comes
    /// exactly when the body was to take the output of a command, and the output was cut; of a command that filters
    /// the body, and of an editor's text, that is so if its status is 0. After an error, which may be that memory ran
    /// out, the draft is as before.
    pub fn answer(&mut self, answer: Answer, _view: &ComposeView<'_>) -> Result<Need, ComposeError>
        requires { is_waited_for self.old.waits answer ≡ true }
        ensures means { Means result self.new (answer_step self.old answer) }
        ensures idle { self.new.waits ≡ None }
        ensures stays { OnErr result (self.new ≡ idle self.old) }
    {
        answer_step(self.alloc, &mut self.machine, answer)
    }

    /// Ends the waiting, and leaves the draft. It takes no memory.
    pub fn refuse(&mut self)
        ensures { self.new ≡ idle self.old }
    {
        self.machine.waits = None;
    }
}
