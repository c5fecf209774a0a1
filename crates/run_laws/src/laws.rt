ghost use Rattle.run_laws.specs.Beside.{RunsAreLawful};
ghost use Rattle.run_laws.specs.Brackets.{PlaysShowSteps};
ghost use Rattle.run_laws.specs.Changing.{CommitsAddUp};
ghost use Rattle.run_laws.specs.Deliveries.{DeliveriesArePrograms, DeliveriesShowSteps};
ghost use Rattle.run_laws.specs.Fronts.{PromisesStand};
ghost use Rattle.run_laws.specs.Keeping.{EditsKeepMessages, FilingsKeepMessages, QuitsKeepMessages};
ghost use Rattle.run_laws.specs.Placed.{DoneHavePlaces};
ghost use Rattle.run_laws.specs.Programs.{PlaysArePrograms, StoppedArePrograms};
ghost use Rattle.run_laws.specs.Rows.{AnotherMayBegin, EndedIsAccepted, RowsAddUp};
ghost use Rattle.run_laws.specs.Runs.{RunPromisesStand, RunsArePrograms, RunsShowSteps};
ghost use Rattle.run_laws.specs.Together.{RunsInterleave};
ghost use Rattle.run_laws.specs.Which.{SaysWhich};
ghost use Rattle.run_laws.specs.WorkedRun.{WorkedRun};

/// At each moment of a run, and at each disk that a stop leaves, a file that others leave alone is what the commits that were
/// decided so far, one after another, make of it as it was at first.
pub fn commits_add_up()
    ensures { CommitsAddUp }
{}

/// Whatever acts a run does, it changes the disk by the steps of one core actor alone: the events of each commit and of each
/// recovery are such steps, and those of all other acts only look.
pub fn plays_show_steps()
    ensures { PlaysShowSteps }
{}

/// The calls of a run's commits and recoveries are those of a program of the core, so that what holds of any number of such
/// programs at once holds of runs.
pub fn plays_are_programs()
    ensures { PlaysArePrograms }
{}

/// What such a program has called when it is stopped for good, between two calls or inside one of which a part is done, are
/// the calls of a program: so what holds of programs holds of those that are killed beside others.
pub fn stopped_are_programs()
    ensures { StoppedArePrograms }
{}

/// What a run promises of its events up to a moment stands, whatever others do after it: one unlawful step of theirs takes
/// away nothing of what was promised before.
pub fn promises_stand()
    ensures { PromisesStand }
{}

/// A run of the program changes the disk by the steps of one core actor alone.
pub fn runs_show_steps()
    ensures { RunsShowSteps }
{}

/// What a run of the program commits and recovers is a program of the core, beside any actors whose record names it leaves
/// alone: recoveries leave what such programs at once commit, each commit whole, in the order of their decisions.
pub fn runs_are_programs()
    ensures { RunsArePrograms }
{}

/// A delivery changes the disk by the steps of one core actor alone.
pub fn deliveries_show_steps()
    ensures { DeliveriesShowSteps }
{}

/// What a delivery commits is a program of the core, beside any actors whose record names it leaves alone.
pub fn deliveries_are_programs()
    ensures { DeliveriesArePrograms }
{}

/// Runs of mailx and deliveries may go on at once, any number of them, two sessions of one user among them, in whatever order
/// their calls come, and any of them may be killed, between two calls or inside one. Recovery by all then leaves the files of
/// the start with the changes of the commits that were decided, each whole, in the order of their decisions.
///
/// It is asked that each may begin on the disk of the start: its token is nobody else's and nothing there carries it, and
/// what stands as a record is sound; that each call was answered as the disk stood; and that no commit has a file with the
/// name of a record of another. A user who names another's record as a folder is outside of it.
pub fn runs_interleave()
    ensures { RunsInterleave }
{}

/// What was answered as done is among these changes: the token and the changes of each commit of such a program that ended
/// as done stand in the list of commit places. Of two commits of one program with the same changes it is said of both alike.
///
/// It is asked that all may begin on the disk of the start, and that the programs run at once on it. Nothing is asked of the
/// changes: a commit without any doesn't begin.
pub fn done_have_places()
    ensures { DoneHavePlaces }
{}

/// Such programs there are: two commit at once where nothing stands, and one is killed inside the call that decides it.
/// What both add stands after recovery.
pub fn worked_run()
    ensures { WorkedRun }
{}

/// What is asked of others for the crash promise of a run or a delivery is met by any number of runs and deliveries at once,
/// killed or not, if those of its own name commit nothing and recover no record meanwhile: each call is lawful where it
/// stands, however a host tells it. So beside other users and deliveries the promise of a run stands without a premise on
/// them, and beside runs that of a delivery; deliveries have one name.
///
/// It is asked that all may begin on the disk of the start, that its locks stand on files alone, and that each call was
/// answered as the disk stood. Another session of the same user may be opened and read meanwhile. A commit of it isn't
/// lawful beside the first: it takes locks with the token of the record that stands.
pub fn runs_are_lawful()
    ensures { RunsAreLawful }
{}

/// Up to a moment others did what is lawful. Then what was due up to there, by the decisions of the run's own commits, stands,
/// whatever others do after it.
pub fn run_promises_stand()
    ensures { RunPromisesStand }
{}

/// After any number of runs, each stopped anywhere or ended, a file that others leave alone is what all their decided
/// commits make of it; and where a run was stopped another may begin with a token that nothing there carries. If it opens a
/// folder, it says which change it recovered: the one whose record stands there, finished if it was decided, or rolled back.
pub fn runs_in_a_row()
    ensures add_up { RowsAddUp }
    ensures another { AnotherMayBegin }
    ensures accepted { EndedIsAccepted }
    ensures which { SaysWhich }
{}

/// If a commit of a run leaves a folder for which nothing was gathered, and mbox is another file, and a mailbox once what was
/// gathered was put into its files: then each message that stood in the folder's file stands there still, be it one that was
/// read or one that others had appended; or, but for its stamp, it stands there or in mbox; or it was deleted, or saved in the
/// system mailbox. And mbox has all that it had.
pub fn quits_keep_messages()
    ensures { QuitsKeepMessages }
{}

/// If a commit of a run gives a message another text, each other message of the file stands there still.
pub fn edits_keep_messages()
    ensures { EditsKeepMessages }
{}

/// If all that a commit of a run does to a mailbox is to put texts there, all that stood there stands there, and all that is
/// put.
pub fn filings_keep_messages()
    ensures { FilingsKeepMessages }
{}
