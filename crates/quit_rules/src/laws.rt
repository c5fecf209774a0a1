ghost use Rattle.quit_rules.specs.QuitLaws.{EachTextStands, NothingElseStands, EachStandsOnce, UnchangedIsLeft};

/// Laws of every quit: each text of the folder stands, stamped, in what stays or in what goes to mbox, unless it is
/// deleted, or saved in the system mailbox without `keepsave`; nothing else stands there, and none twice.
pub fn a_quit_loses_nothing()
    ensures stands { EachTextStands }
    ensures nothing_else { NothingElseStands }
    ensures once { EachStandsOnce }
{}

/// A law of every quit: if each message stays and is stamped already, nothing is changed but what was gathered.
pub fn what_is_unchanged_stays()
    ensures { UnchangedIsLeft }
{}
