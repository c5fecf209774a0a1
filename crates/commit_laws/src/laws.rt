ghost use Rattle.commit_laws.specs.Asking.{LinesAsk, RefusedLinesChangeNothing};
ghost use Rattle.commit_laws.specs.Folders.{FoldersAreMailboxes};
ghost use Rattle.commit_laws.specs.Kinds.{CommitsAreKnown};
ghost use Rattle.commit_laws.specs.NewMail.{NewMailStandsBehind};
ghost use Rattle.commit_laws.specs.Others.{OthersMayWrite};
ghost use Rattle.commit_laws.specs.Premises.{PremisesAreMet};
ghost use Rattle.commit_laws.specs.TooLong.{StagedFileTooLong};

/// What a line asks for, wherever it comes from: nothing, or one thing that isn't a commit; or the commit of what is put
/// into a file and then its receipt; or that the folder is left, and then the run ended or another file opened.
pub fn lines_ask()
    ensures { LinesAsk }
{}

/// Once a commit of a line was answered as done, what the line asks isn't refused any more. So a line that is refused, be it
/// by a lock, a changed file or one that is missing, has changed no file.
pub fn refused_lines_change_nothing()
    ensures { RefusedLinesChangeNothing }
{}

/// Each commit of a run is one of these, in a state of the run whose folder is a mailbox: a folder is left, with what was
/// gathered; messages are put into a file; a message gets another text; a draft is recorded, or kept as a dead letter; or
/// `~w` writes bytes.
pub fn commits_are_known()
    ensures { CommitsAreKnown }
{}

/// The folder of each state of a run is a mailbox, whatever the files hold.
pub fn folders_are_mailboxes()
    ensures { FoldersAreMailboxes }
{}

/// What `newmail` takes in stands behind the messages that were there, and has its own marks; those that were there keep
/// theirs.
pub fn new_mail_stands_behind()
    ensures { NewMailStandsBehind }
{}

/// Others may write and remove any file of an ordinary name on which no lock of a commit stands, also one that a commit names
/// which is under way.
pub fn others_may_write()
    ensures { OthersMayWrite }
{}

/// A recovery that finds a decided commit whose staged file has more bytes than a load takes changes nothing, and tells the
/// staged file's name and length.
pub fn staged_file_too_long()
    ensures { StagedFileTooLong }
{}

/// There are events, a step of another among them, that meet all that is asked of a run, in whatever environment.
pub fn premises_are_met()
    ensures { PremisesAreMet }
{}
