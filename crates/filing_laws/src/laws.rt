ghost use Rattle.filing_laws.specs.Editing.{EditsLeaveTheOthers};
ghost use Rattle.filing_laws.specs.Gathering.{GatheredIsPut, GatheredStays};
ghost use Rattle.filing_laws.specs.Leaving.{BothAreInOrder, NothingIsBoxed, OnlyTheFolder, QuitsFillMbox};
ghost use Rattle.filing_laws.specs.Marking.{EachFlagAlone};
ghost use Rattle.filing_laws.specs.Saving.{MarkedIsPut};
ghost use Rattle.filing_laws.specs.Telling.{GatheredIsTold, PutIsAtTheEnd, QuitsTellBehind};

/// A law of quits, if the folder is a mailbox, and mbox another file and a mailbox once what was gathered was put into its
/// files: the texts that go to mbox stand there afterwards, in order, before all that stands there then, or behind it with
/// `append`.
pub fn quits_fill_mbox()
    ensures { QuitsFillMbox }
{}

/// A law of every quit: what stays and what goes to mbox stand in the order of the folder's messages.
pub fn quits_keep_the_order()
    ensures { BothAreInOrder }
{}

/// A law of each folder but the system mailbox: nothing goes to mbox when it is left, and beside what was gathered its own
/// file alone is changed, also where it is mbox itself.
pub fn other_folders_leave_mbox()
    ensures boxed { NothingIsBoxed }
    ensures own { OnlyTheFolder }
{}

/// A law of flags: of the six acts each sets or clears its own flag, and leaves the two others.
pub fn each_flag_stands_alone()
    ensures { EachFlagAlone }
{}

/// A law of `save`, `Save`, `copy`, `Copy` and `write`: each act is on the row of a message of the folder, and the text
/// of that message, or with `write` its body, is in what the command puts into the file.
pub fn what_is_marked_saved_is_put()
    ensures { MarkedIsPut }
{}

/// A law of what is gathered: no command takes anything of it away, and all of it stands in its files once they are
/// changed, also where several things were gathered for one file.
pub fn what_is_gathered_is_put()
    ensures stays { GatheredStays }
    ensures put { GatheredIsPut }
{}

/// A law of receipts: a quit prints nothing before it has committed each of its changes, and the reply of each thing that
/// was gathered, whose change is one of these, is in what it prints then; and once the change of what was put is made, its
/// file has all that it had, and ends with it.
pub fn a_receipt_tells_what_is_there()
    ensures behind { QuitsTellBehind }
    ensures gathered { GatheredIsTold }
    ensures put { PutIsAtTheEnd }
{}

/// A law of every edit: the folder has as many messages as before, the edited one is the result, and each other is as
/// it was.
pub fn an_edit_leaves_the_others()
    ensures { EditsLeaveTheOthers }
{}
