ghost use Rattle.message_laws.specs.Messages.{MessagesAreKept, PutIsKept};
ghost use Rattle.message_laws.specs.Rows.{RowsKeepMessages};

/// A message that stands in a mailbox at some moment of a run, because it stood there at the start or because others have
/// appended it, stands at each later moment, and in what recovery makes of each disk that a stop leaves, whole but for
/// `Status` and `X-Status`, in that mailbox or in an mbox to which the run moved it. Else a commit of the run that is decided
/// in between took it away: it was deleted, or saved in the system mailbox; it was given another text; it went to an mbox
/// that is its own file, or no mailbox, or into which something else was put; something else than messages, as `write`
/// puts, was put into its file; or the session had no mark for it.
///
/// It is asked that others leave the message where it stands. What is saved is in what the command puts, by another law; that
/// this was before it is taken away isn't said here, nor that a session has a mark for each message.
pub fn messages_are_kept()
    ensures { MessagesAreKept }
{}

/// So it is after any number of runs, one after another, each of which ended or was stopped anywhere, with whatever others do
/// in and between them, if they leave the message where it stands.
pub fn rows_keep_messages()
    ensures { RowsKeepMessages }
{}

/// What a commit of a run puts into a mailbox, to which it does nothing else, is kept so from its decision on: so messages
/// that were saved or copied stay where they were put, and so do records and dead letters.
pub fn what_is_put_is_kept()
    ensures { PutIsKept }
{}
