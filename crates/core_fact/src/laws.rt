ghost use Rattle.core_fact.specs.Parts.{CallsCanBeTold};
ghost use Rattle.core_fact.specs.Added.{AddedTextsStay};
ghost use Rattle.core_steps.specs.Refusals.{RefusalsAreThese};
ghost use Rattle.core_steps.specs.Theorem.{EveryInterleaving, EachStepSettles, MessagesStay, PlacesAreFolded};
ghost use Rattle.core_steps.specs.RunSteps.{RunsAreSteps, ProgramsInterleave};
ghost use Rattle.core_steps.specs.Traces.{TracesAreRuns};
ghost use Rattle.core_steps.specs.Between.{ProgramsSettle, ProgramsKeepMessages};

/// After every list of steps of actors that may begin, recovery by all of them leaves the files of the start
/// with the changes of the commit places, in their order.
pub fn every_interleaving()
    ensures { EveryInterleaving }
{}

/// A step changes what recovery by all leaves by the changes of the commit places that it adds, and by nothing else.
pub fn each_step_settles()
    ensures { EachStepSettles }
{}

/// A message that stands stays until a later change leaves it out, or puts bytes behind it as they are.
pub fn messages_stay()
    ensures { MessagesStay }
{}

/// A commit place that stands in the list is in the fold.
pub fn places_are_folded()
    ensures { PlacesAreFolded }
{}

/// What a commit place adds to a mailbox, proper texts alone, stands in it until a later change leaves it out, or puts
/// bytes behind it as they are.
pub fn added_texts_stay()
    ensures { AddedTextsStay }
{}

/// A step isn't allowed exactly for one of these causes.
pub fn refusals_are_these()
    ensures { RefusalsAreThese }
{}

/// Whatever programs do at once on one disk, some steps of their actors show it. Each of the programs commits and
/// recovers, one time after another, and may be stopped for good between calls or inside one.
pub fn runs_are_steps()
    ensures { RunsAreSteps }
{}

/// Programs run at once on one disk if each has a trace of what it sees, which has its own calls and steps of others,
/// and of which each event says what is so.
pub fn traces_are_runs()
    ensures { TracesAreRuns }
{}

/// Any number of programs may commit and recover at once, and any of them may be stopped: recoveries leave the files of
/// the start with the changes of the commits that passed their commit place, each whole, in the order of these places.
pub fn programs_interleave()
    ensures { ProgramsInterleave }
{}

/// So it is between any two moments of a run, and a message that stands in a file stays, if the changes that come
/// leave it.
pub fn programs_settle()
    ensures files { ProgramsSettle }
    ensures messages { ProgramsKeepMessages }
{}

/// Each call of another can be told by steps that do to no file and no lock what the call doesn't, and that lead from the
/// disk just before it to the disk just after it. So a trace of one among the calls of others can be told, in the form in
/// which those calls are lawful beside it. Where the caller is killed in it, it is asked that it has one right at most then.
pub fn calls_can_be_told()
    ensures { CallsCanBeTold }
{}
