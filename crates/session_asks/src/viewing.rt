// The view that a command sets.
ghost use Rattle.std.specs.Prelude.{◌≡◌, [], IfErr, IfOk, OnErr, OnOk};
ghost use Rattle.session_play.specs.Play.{Goes};
ghost use Rattle.session_state.specs.Answers.{after_asks, in_play, EndsByAsk};
ghost use Rattle.session_state.specs.Bringing.{OnlyBrings};
ghost use Rattle.session_state.specs.States.{IsState};
ghost use Rattle.session_asks.specs.Asks.{KeepsDesk};
ghost use Rattle.session_asks.specs.Viewing.{views, IsViewed};

use mail_text::Memory;
use session_state::{AskResult, RunError, SessionState};
use std::alloc::Global;
use thread_view::{View, ViewKind, view_of};

// Shows the messages in a view of this kind. If memory runs out the state stays.
fn show_in(alloc: Global, state: &mut SessionState, kind: ViewKind) -> Result<(), Memory>
    requires { IsState state.old }
    ensures viewed { OnOk result (IsViewed kind state.old state.new) }
    ensures valid { IsState state.new }
    ensures stays { OnErr result (state.new ≡ state.old) }
{
    let View { order, depth, kind } = view_of(alloc, state.desk.shown.rows.items(), kind)?;
    state.desk.shown.order = order;
    state.desk.shown.depth = depth;
    state.desk.view = kind;
    Ok(())
}

/// Shows the messages in a view of this kind, and the command is over; running out of memory ends the run.
pub(crate) fn view(
    alloc: Global,
    state: &mut SessionState,
    kind: ViewKind,
) -> Result<AskResult, RunError>
    requires { IsState state.old }
    ensures goes { Goes (views state.old kind) [] (in_play (after_asks state.new) result) }
    ensures brings { OnlyBrings state.old state.new }
    ensures valid { IsState state.new }
    ensures desk { KeepsDesk state.old state.new result }
    ensures end { IfOk result EndsByAsk }
    ensures memory { IfErr result (λ e. e ≡ RunError.Memory) }
{
    show_in(alloc, state, kind)?;
    Ok(AskResult::Over)
}
