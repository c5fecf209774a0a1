ghost use Rattle.commit_machine.specs.EventRows.{EventsHaveRows};
ghost use Rattle.commit_machine.specs.Runs.{RunsAreSafe};

/// A run of a job that ended is safe at every moment and at every stop, and says what it meets: where a record
/// is made it is published, and a right or a lock that it doesn't get is another's. Its own events are calls on the
/// disk, or ask for the time.
pub fn runs_are_safe()
    ensures { RunsAreSafe }
{}

/// Each event has its row: its answer, whether its call failed, and what it may change.
pub fn events_have_rows()
    ensures { EventsHaveRows }
{}
