// What a session knows between two lines.
ghost use Rattle.std.specs.Prelude.{◌≡◌, [], None};
ghost use Rattle.session_state.specs.States.{IsState, IsSession, at_rest, cut_to, line_ended, resumed};

use crate::{Frames, SendOutcome};
use compose_tilde::Compose;
use mail_text::Text;
use mailx_macros::Macros;
use read_commands::Desk;
use std::alloc::Global;

/// What a session knows between two lines. Calls that take one ask for a valid one: the desk is, and the actor's files
/// can have their names.
#[derive(Drop)]
pub struct SessionState {
    /// What commands show and change.
    pub desk: Desk,
    /// What stands in front of a name without a leading `/`, where it goes to the host: the working folder and a `/`, or
    /// nothing if that isn't known.
    pub here: Text,
    /// What the names of the run's record of commits and of its right begin with: `.mailx` in the home folder, as the host
    /// is told it.
    pub actor: Text,
    /// A word that no other run has.
    pub token: u64,
    /// The flag `-F`: a draft is recorded in the file named after its first recipient.
    pub by_recipient: bool,
    /// The lines from elsewhere that wait to be carried out.
    pub frames: Frames,
    /// How many commands the last line of the input has given so far, itself among them.
    pub count: u32,
    /// The draft that is open, so that the lines of the input are those of it.
    pub draft: Option<Compose>,
    /// The file that this draft is recorded in, if it is one of its own.
    pub file: Option<Text>,
    /// What became of the drafts so far.
    pub outcome: SendOutcome,
}

// Drops the definition that is under way, if one is.
#[tactic(auto, using(crate::proofs::RestLemmas::none_dropped))]
fn drop_definition(macros: &mut Macros)
    ensures { macros.new ≡ record macros.old { unfinished = None } }
{
    if macros.open() {
        macros.abandon();
    }
}

/// After lines that are over, if any are, cuts the conditions that were opened in them, so that this many of those
/// before stay, and drops the definition that was begun in them.
pub fn cut_to(desk: &mut Desk, nested: Option<usize>)
    ensures { desk.new ≡ cut_to nested desk.old }
{
    if let Some(count) = nested {
        desk.conditions.cut(count.min(desk.conditions.depth()));
        drop_definition(&mut desk.macros);
    }
}

/// Drops the lines that wait, and the conditions and the definition that they left open.
#[tactic(auto, using(crate::proofs::RestLemmas::kept_valid))]
pub fn drop_lines(alloc: Global, state: &mut SessionState)
    ensures dropped { state.new ≡ resumed state.old [] }
    ensures valid { IsState state.old → IsState state.new }
{
    cut_to(&mut state.desk, state.frames.open_before());
    state.frames = Frames::new(alloc);
}

// Drops the lines that wait, with the conditions and the definition that they left open, and counts no command any
// more.
fn clear(alloc: Global, state: &mut SessionState)
    requires { IsState state.old }
    ensures line_ended { state.new ≡ at_rest state.old }
    ensures valid { IsState state.new }
{
    drop_lines(alloc, state);
    state.count = 0;
}

/// Drops the lines that wait, with what they left open, and counts no command any more, unless a draft is open, after
/// which they go on.
#[tactic(auto, using(crate::proofs::RestLemmas::rested_valid))]
pub fn end_line(alloc: Global, state: &mut SessionState)
    requires { IsState state.old }
    ensures line_ended { state.new ≡ line_ended state.old }
    ensures valid { IsSession state.new }
{
    if state.draft.is_none() {
        clear(alloc, state);
    }
}
