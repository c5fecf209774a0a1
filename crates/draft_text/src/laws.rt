ghost use Rattle.draft_text.specs.DraftLaws.{StoredIsProper, StoredReadsBack, OpeningIsRead, SentReadsBack, FieldsAreFound, PlainIsStored, FlatIsKept};
ghost use Rattle.draft_text.specs.Addresses.{EachIsWhatIsRead};
ghost use Rattle.draft_text.specs.ReplyLaws.{EachOnce, AnsweredStay, OwnAreLeftOut};

/// A law: if no part of a draft but its body holds a line feed, and the user's name holds none, its text can be put
/// into a mailbox and read back as one message.
pub fn a_draft_can_be_put_into_a_mailbox()
    ensures { StoredIsProper }
{}

/// A law: what is then read of that text is the From line of the user and the moment, the fields of the draft in order
/// and no other line, and the body, quoted and without the line feeds at its end.
pub fn a_stored_draft_reads_back()
    ensures { StoredReadsBack }
{}

/// A law: that From line, read after its first word, tells the user, if that is a word, and what the moment's clock
/// shows.
pub fn an_opening_line_reads_back()
    ensures { OpeningIsRead }
{}

/// A law: what is read of the message that is sent, after any first line, is the fields of the draft in order and no
/// other line, and the body with a line feed at its end.
pub fn a_sent_draft_reads_back()
    ensures { SentReadsBack }
{}

/// A law: a text with the fields of a draft has each of them under its name, with its value but for blanks at the ends,
/// and none if the draft has nothing to put there.
pub fn each_field_is_found()
    ensures { FieldsAreFound }
{}

/// A law: if no line of a body begins with `From `, it is stored as it is, but for line feeds at its end.
pub fn plain_bodies_are_stored_as_they_are()
    ensures { PlainIsStored }
{}

/// A law: a draft of which no part but the body holds a line feed is the same once line feeds stand for spaces there.
pub fn a_draft_of_flat_parts_stays()
    ensures { FlatIsKept }
{}

/// A law: the addresses of a value are the list that it reads as, and none if a piece of it is bad.
pub fn addresses_are_what_is_read()
    ensures { EachIsWhatIsRead }
{}

/// Laws of answers: no address stands twice in one, ASCII case ignored; it goes to all who are answered; and an own name
/// that is to be dropped is in it only if it is answered.
pub fn answers_go_to_each_once()
    ensures once { EachOnce }
    ensures answered { AnsweredStay }
    ensures own { OwnAreLeftOut }
{}
