// What became of the drafts of a run so far.
ghost use Rattle.std.specs.Prelude.{◌≡◌};
ghost use Rattle.session_state.specs.Outcomes.{not_sent, or_earlier, status_of};
ghost use Rattle.session_state.specs.Statuses.{IsEnd, IsLineEnd};

use crate::Status;

/// What became of the drafts of a run so far.
#[derive(Clone, Copy, Debug, PartialEq, Eq)]
pub enum SendOutcome {
    /// Each was sent, or dropped as it was to be.
    Fine,
    /// One wasn't sent: its names were refused, or the sender could not be run, or ended with this status. The last
    /// such status is kept.
    NotSent { status: Option<i32> },
    /// The commit of the record or the dead letter of one was refused.
    Refused,
    /// One could not be recorded, since the word for its record stands for no file.
    Unrecorded,
}

// A sender's status, or if there is none that of an earlier one.
fn or_earlier(status: Option<i32>, earlier: Option<i32>) -> Option<i32>
    ensures { result ≡ or_earlier status earlier }
{
    match status {
        Some(status) => Some(status),
        None => earlier,
    }
}

/// What became of them once a further one isn't sent, by a sender that ended with this status if one was run.
pub fn not_sent(status: Option<i32>, outcome: SendOutcome) -> SendOutcome
    ensures { result ≡ not_sent status outcome }
{
    match outcome {
        SendOutcome::Fine => SendOutcome::NotSent { status },
        SendOutcome::NotSent { status: earlier } => SendOutcome::NotSent {
            status: or_earlier(status, earlier),
        },
        SendOutcome::Refused => SendOutcome::Refused,
        SendOutcome::Unrecorded => SendOutcome::Unrecorded,
    }
}

/// How a run ends that nothing else ends.
pub fn status_of(outcome: SendOutcome) -> Status
    ensures status { result ≡ status_of outcome }
    ensures line_end { IsLineEnd result }
    ensures end { IsEnd result }
{
    match outcome {
        SendOutcome::Fine => Status::Done,
        SendOutcome::NotSent { status } => Status::NotSent { status },
        SendOutcome::Refused | SendOutcome::Unrecorded => Status::Refused,
    }
}
