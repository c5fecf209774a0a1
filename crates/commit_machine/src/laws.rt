ghost use Rattle.commit_machine.specs.Laws.{CrashSafe, FrontIsRun, StretchesJoin, StopSafe, OnlyDecisions, DecisionsApply, NothingLeft, NoRecordStands, RecoverySettles, DecisionsAreTold};
ghost use Rattle.commit_machine.specs.Edits.{EditsAreChanges};
ghost use Rattle.commit_machine.specs.Restraints.{RightIsGivenUp, NothingAfterAFault, NoRefusedIsDecided};
ghost use Rattle.commit_machine.specs.Rows.{RowIsSafe, RowMoments, RowStops, RowStopsBetween};
ghost use Rattle.commit_machine.specs.Troubles.{TroubledRuns};
ghost use Rattle.commit_machine.specs.Worked.{AloneGoes, WorkedRuns};

/// At every moment of a commit or a recovery, whatever others lawfully do meanwhile, what recovery
/// would make of the files is what the accepted edits give, what it would leave of the locks are those
/// of others, and the disk is sound.
pub fn crash_safe()
    ensures { CrashSafe }
{}

/// What stands at the front of a run is a run, so what is said of a run holds at each moment of it.
pub fn front_is_run()
    ensures { FrontIsRun }
{}

/// Stretches of the machine's events, one after the other, are a stretch.
pub fn stretches_join()
    ensures { StretchesJoin }
{}

/// What `crash_safe` tells of the disk holds too of each disk that is left if the run stops before or
/// inside an event.
pub fn stop_safe()
    ensures { StopSafe }
{}

/// What is due changes by decisions and by steps of others alone.
pub fn only_decisions()
    ensures { OnlyDecisions }
{}

/// A decision makes all edits of the job.
pub fn decisions_apply()
    ensures { DecisionsApply }
{}

/// At an end without a fault nothing on the disk carries the job's token.
pub fn nothing_left()
    ensures { NothingLeft }
{}

/// When a job that is done gives up its right no record stands.
pub fn no_record_stands()
    ensures { NoRecordStands }
{}

/// When a recovery that is done gives up its right the disk is its own settled disk.
pub fn recovery_settles()
    ensures { RecoverySettles }
{}

/// A job that ends as done was decided once, in its events; one that is refused, runs out of memory or
/// recovers was never decided. One that failed says whether it was, or that it doesn't know.
pub fn decisions_are_told()
    ensures { DecisionsAreTold }
{}

/// A run that ends has given up its right.
pub fn right_is_given_up()
    ensures { RightIsGivenUp }
{}

/// After a failed call a run changes no file and no lock, and takes no right.
pub fn nothing_after_a_fault()
    ensures { NothingAfterAFault }
{}

/// A job is decided only if it isn't refused, judged on its files as they are due just before the
/// decision.
pub fn no_refused_is_decided()
    ensures { NoRefusedIsDecided }
{}

/// The edits of changes make of files what the changes, one after the other, make of them.
pub fn edits_are_changes()
    ensures { EditsAreChanges }
{}

/// The events that the machine makes if each call is carried out are a run's.
pub fn alone_goes()
    ensures { AloneGoes }
{}

/// A commit of one file has fourteen events, the tenth the decision, and one of two files nineteen.
/// A recovery carries out a record that was decided, and undoes one that wasn't. A commit does the same
/// first if a record stands; if it finds its second file busy, it undoes what it did. Others may
/// work meanwhile: there is a run among lawful steps.
pub fn worked_runs()
    ensures { WorkedRuns }
{}

/// How a commit of one file may end if the record or the file is too long, if memory runs out, and if a
/// call fails before its decision, at it and after it.
pub fn troubled_runs()
    ensures { TroubledRuns }
{}

/// After several jobs in a row, with events between them that only look, nothing carries the run's
/// token, and what is settled is what the edits of the decided ones give, each made at its decision.
pub fn row_is_safe()
    ensures { RowIsSafe }
{}

/// So it is at each moment of a job that follows them.
pub fn row_moments()
    ensures { RowMoments }
{}

/// And on each disk that is left if the run stops before or inside an event of that job.
pub fn row_stops()
    ensures { RowStops }
{}

/// And if it stops between jobs.
pub fn row_stops_between()
    ensures { RowStopsBetween }
{}
