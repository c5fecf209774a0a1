ghost use Rattle.reply_laws.specs.Filing.{FilingsTellBehind};
ghost use Rattle.reply_laws.specs.Playing.{CommitsFirst, EditsAfter, OpensAfter};

/// A law of commands that put messages into a file: the receipt is printed, and stands behind the commit of what was put;
/// or, with `batch`, nothing is printed, and it is gathered with what is put, behind all that was gathered before.
pub fn filings_tell_behind()
    ensures { FilingsTellBehind }
{}

/// A law of what a session makes of asks: where the first is a commit, where another file is opened, and where a message
/// is edited, nothing is printed before a commit of those changes was answered as done. If it is refused, nothing is
/// printed but the line that refuses the command.
pub fn nothing_is_said_before()
    ensures first { CommitsFirst }
    ensures opens { OpensAfter }
    ensures edits { EditsAfter }
{}
