ghost use Rattle.mailx_top.specs.Alike.{RunsAreAlike};
ghost use Rattle.mailx_top.specs.AlikeTrials.{TrialsAreAlike, TriesAreAlike};
ghost use Rattle.mailx_top.specs.Appended.{RunsKeepAppended};
ghost use Rattle.mailx_top.specs.Editions.{EditsKeepAppended};
ghost use Rattle.mailx_top.specs.Fitting.{RunsFit};
ghost use Rattle.mailx_top.specs.Quits.{QuitsKeepAppended, QuitsKeepGathered};
ghost use Rattle.mailx_top.specs.Replies.{RunsReplyAfter};

use message_state::a_text_has_one_row;
use thread_view::views_are_alike;

/// In a run that is safe each accepted commit has its decision. If it rewrites a file of which it has no other
/// change, what others appended meanwhile follows the rewritten messages, from the decision on, at each moment and at
/// each disk that a stop leaves, until the file is changed again. If it adds texts to a file, they follow what stood
/// there; and if it rewrites the file after that, what others appended follows the rewritten messages, and the texts
/// follow that.
pub fn appended_follows()
    ensures { RunsKeepAppended }
{}

/// In such a run, from a disk that is sound and carries nothing of its token, with lawful steps of others, a commit is
/// decided only if its changes can be made of the files as they are then. So one that rewrites a file of which it has no
/// other change is decided only if the file begins with the messages that the commit was made for.
pub fn decided_fit()
    ensures { RunsFit }
{}

/// If a commit of a run that is safe leaves a folder, what others appended to the messages that were read follows
/// those that stay, from the decision on, at each moment and at each disk that a stop leaves, until the file is changed
/// again; mbox is another file, and so is each for which a change was gathered.
pub fn quits_keep_appended()
    ensures { QuitsKeepAppended }
{}

/// The same where messages were gathered for the folder's own file: they follow what others appended.
pub fn quits_keep_gathered()
    ensures { QuitsKeepGathered }
{}

/// If a commit of a run that is safe gives one message of the folder another text, what others appended to the messages
/// that were read follows these with the edited one, from the decision on, at each moment and at each disk that a stop
/// leaves, until the file is changed again.
pub fn edits_keep_appended()
    ensures { EditsKeepAppended }
{}

/// In a run that is safe, if a commit is answered as done, each output that follows stands after its decision: no
/// byte of a reply is printed before the commit that it tells of is decided.
pub fn replies_follow()
    ensures { RunsReplyAfter }
{}

/// A run is a function of its disk, its input, and what children, editors and the clock answer: two that come to their ends from
/// one start, without steps of others, end with the same status, print the same bytes and leave the same disk, however
/// their input was cut into pieces.
pub fn runs_are_alike()
    ensures { RunsAreAlike }
{
    a_text_has_one_row();
    views_are_alike();
}

/// A trial is a function of its number of messages: two on one number that neither want of memory nor a failed call on
/// the disk cut off end with the same status, print the same bytes and leave the same disk. So two runs with `--try` of
/// one number that end with status 0 print the same summary.
pub fn trials_are_alike()
    ensures trials { TrialsAreAlike }
    ensures tries { TriesAreAlike }
{
    runs_are_alike();
}
