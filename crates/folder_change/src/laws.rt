ghost use Rattle.folder_change.specs.ListLaws.{AddAppends, FrontPrepends, RewriteKeepsTheRest, RewriteByTheBase, AppliedInOrder, EachFileAlone, OthersStay};

/// Proper texts that are added to a mailbox follow its own.
pub fn add_appends()
    ensures { AddAppends }
{}

/// Proper texts that are put in front of a mailbox stand before its own.
pub fn front_prepends()
    ensures { FrontPrepends }
{}

/// A Rewrite keeps every text that follows its base.
pub fn rewrite_keeps_the_rest()
    ensures { RewriteKeepsTheRest }
{}

/// A Rewrite of a mailbox has a file exactly if the list begins with the base, and else the
/// number of the first message that differs.
pub fn rewrite_by_the_base()
    ensures { RewriteByTheBase }
{}

/// Changes are applied one after the other.
pub fn applied_in_order()
    ensures { AppliedInOrder }
{}

/// What changes make of a file depends on no other file.
pub fn each_file_alone()
    ensures { EachFileAlone }
{}

/// Files that no change names stay as they are.
pub fn others_stay()
    ensures { OthersStay }
{}
