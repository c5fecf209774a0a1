ghost use Rattle.message_state.specs.CommentLaws.{CommentIsSpace, OpenStays};
ghost use Rattle.message_state.specs.ProperLaw.{StampKeepsProper};
ghost use Rattle.message_state.specs.RowLaws.{OneRow, SomeRow};
ghost use Rattle.message_state.specs.StampLaws.{StampReads, FlagsRead, StampMarks, StampIsOnce, StampedAreLeft, StampKeepsTheRest, StampKeepsFlags, StampKeepsLetters, StampKeepsOthers};
ghost use Rattle.message_state.specs.StateLaws.{FlaggingStands, FlagsStay, UndeleteReads, UndeleteKeeps, OnlyDeleteDeletes, DeletedStays, NothingUnreads, OnceIsEnough, SeenStays};

use mail_addresses::{each_value_is_read, one_reading};

/// Laws of the table of states, over every mark and act.
pub fn acts_by_the_table()
    ensures flagging_stands { FlaggingStands }
    ensures flags_stay { FlagsStay }
    ensures undelete_reads { UndeleteReads }
    ensures undelete_keeps { UndeleteKeeps }
    ensures only_delete_deletes { OnlyDeleteDeletes }
    ensures deleted_stays { DeletedStays }
    ensures nothing_unreads { NothingUnreads }
    ensures once_is_enough { OnceIsEnough }
    ensures seen_stays { SeenStays }
{}

/// Laws of stamped texts: a stamped text has the letters and the flags of the mark, and so has its mark. A text that
/// is stamped twice is as it was stamped once, and one is left as it is exactly if it has these letters and flags.
pub fn stamps_read_back()
    ensures reads { StampReads }
    ensures flags { FlagsRead }
    ensures marks { StampMarks }
    ensures once { StampIsOnce }
    ensures left { StampedAreLeft }
{}

/// Laws of what a stamp keeps: nothing but `Status` fields differs in a stamped text if the flags are as they were,
/// nothing but `X-Status` fields if the letters are, and else nothing but both. What other programs put into
/// `X-Status` stays, in its order.
pub fn stamps_keep_the_rest()
    ensures the_rest { StampKeepsTheRest }
    ensures flags { StampKeepsFlags }
    ensures letters { StampKeepsLetters }
    ensures others { StampKeepsOthers }
{}

/// A law: each text has a row.
pub fn each_text_has_a_row()
    ensures { SomeRow }
{
    each_value_is_read();
}

/// A law: a text has no other row.
pub fn a_text_has_one_row()
    ensures { OneRow }
{
    one_reading();
}

/// A law: comments are the same in dates and in addresses. What is a comment in an address is a space in a date, and a
/// parenthesis that nothing closes in one isn't closed in the other.
pub fn comments_are_the_same()
    ensures closed { CommentIsSpace }
    ensures unclosed { OpenStays }
{}

/// A law: a text that can be written to a mailbox and read back can be so with a mark stamped on it.
pub fn stamps_keep_texts_proper()
    ensures { StampKeepsProper }
{}
