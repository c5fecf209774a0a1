ghost use Rattle.play_safety.specs.Appended.{AppendedFollows};
ghost use Rattle.play_safety.specs.Fitting.{DecidedFit};
ghost use Rattle.play_safety.specs.Replies.{PlaysReplyAfter};
ghost use Rattle.play_safety.specs.Safe.{PlaysAreSafe, TracesAreRead, DoneIsDecided};

/// The trace of a play whose commits and recoveries are all of one actor and one token, from a disk that is sound and
/// carries nothing of the token, among lawful steps of others: at each moment and at each disk that a stop leaves, what
/// recovery would make of the files is what the accepted commits give, each from its decision on.
pub fn plays_are_safe()
    ensures { PlaysAreSafe }
{}

/// In each trace whose own events carry out a play it can be read which commits were accepted.
pub fn traces_are_read()
    ensures { TracesAreRead }
{}

/// Each commit of a play that is answered as done is decided in its own stretch of events, which holds no output.
pub fn done_is_decided()
    ensures { DoneIsDecided }
{}

/// If a commit of a play is answered as done, each output that follows, in its own stretch of events and in all later
/// ones, stands after its decision: no byte of a reply is printed before the commit that it tells of is decided.
pub fn replies_follow()
    ensures { PlaysReplyAfter }
{}

/// In a crash safe run each accepted commit has its decision. If it rewrites a file of which it has no other change,
/// what others appended meanwhile follows the rewritten messages, from the decision on, at each moment and at each disk
/// that a stop leaves, until the file is changed again; and a file that doesn't begin with the messages that the commit
/// was made for stays as it is. If it adds texts to a file, they follow what stood there; and if it rewrites the file
/// after that, what others appended follows the rewritten messages, and the texts follow that.
pub fn appended_follows()
    ensures { AppendedFollows }
{}

/// A commit of a play is decided only if its changes can be made of the files as they are then. So one that rewrites a
/// file of which it has no other change is decided only if the file begins with the messages that it was made for.
pub fn decided_fit()
    ensures { DecidedFit }
{}
