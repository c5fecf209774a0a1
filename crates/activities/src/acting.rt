// Activities. One keeps its values in one place, and a stage that is copied; it is handed the answer to what it asked for,
// and says how it goes on.
ghost use Rattle.std.specs.Prelude.{ℕ, IfOk};
ghost use Rattle.session_play.specs.Play.{Play, Next};
ghost use Rattle.activities.specs.Acting.{Reply, reply_of, Leads};

use crate::{Answer, Turn};
use mail_text::Memory;
use session_state::SessionState;
use std::alloc::Global;

/// Something that is done by calls. Contracts see what is left of it, in a state, as a play.
pub trait Activity {
    ghost use Rattle.activities.specs.declared.call.Answer.{Answer};
    ghost use Rattle.session_state.specs.declared.state.SessionState.{SessionState};
    ghost use Rattle.session_state.specs.declared.flow.Flow.{Flow};
    ghost use Rattle.session_state.specs.declared.status.Status.{Status};
    ghost use Rattle.session_state.specs.States.{IsState};

    /// What follows the reply to what it asked for.
    ghost follows: { Self → SessionState → Reply → Play (Next SessionState Status) };

    /// The answer is one to what it asked for, and it stands so that it can take it.
    ghost takes: { Self → SessionState → Answer → Type 0 };

    /// The most calls that it still asks for.
    ghost most: { Self → ℕ };

    /// How the session may go on after it.
    ghost ends: { Flow → Type 0 };

    /// What it may change of a state.
    ghost changes: { SessionState → SessionState → Type 0 };

    /// Takes the answer, and says how it goes on. It fails only if memory runs out.
    fn take(
        &mut self,
        alloc: Global,
        state: &mut SessionState,
        answer: Answer,
    ) -> Result<Turn, Memory>
        requires state { IsState state.old }
        requires answer { takes self.old state.old answer }
        ensures leads { IfOk result (Leads (most self.old) (follows self.old state.old (reply_of state.old answer))
            (follows self.new state.new) (takes self.new state.new) ends (most self.new) state.new) }
        ensures changes { changes state.old state.new };

    /// No change is one, two are one, and after one a valid state is valid.
    ghost stays: { (s : SessionState) → changes s s };

    ghost joins: { (s t u : SessionState) → changes s t → changes t u → changes s u };

    ghost valid: { (s t : SessionState) → changes s t → IsState s → IsState t };
}
