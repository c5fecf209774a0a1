ghost use Rattle.leaf_laws.specs.Answering.{NobodyElse, OthersStay};
ghost use Rattle.leaf_laws.specs.Arguments.{BadAreRefused};
ghost use Rattle.leaf_laws.specs.Asking.{ModesAreAsked, WantedIsAsked};
ghost use Rattle.leaf_laws.specs.Cutting.{GoodPiecesAreCut};
ghost use Rattle.leaf_laws.specs.Lines.{PageIsLines, SummaryIsALine};
ghost use Rattle.leaf_laws.specs.Reaching.{AddedAreReached, GivenAreAdded, ReachedAreAdded};
ghost use Rattle.leaf_laws.specs.Showing.{KeptAreShown};

/// Laws of expansion. Nobody else is added: what is added was given, or aliases lead to it from there. Nobody is lost: a
/// given name that is no alias is added; so is one to which aliases lead, the own names that are to be dropped apart,
/// ASCII case aside.
pub fn names_stand_for_whom_they_reach()
    ensures only { AddedAreReached }
    ensures given { GivenAreAdded }
    ensures all { ReachedAreAdded }
{}

/// Laws of answers. Nobody is lost: one to all goes to each address of `To`, and to each of `Cc` at least in copy, the own
/// names that are to be dropped apart, ASCII case aside. Nobody else is in it: it goes to who is answered and to addresses
/// of `To`, and in copy to addresses of `Cc`.
pub fn answers_go_to_whom_they_are_meant_for()
    ensures stay { OthersStay }
    ensures only { NobodyElse }
{}

/// A law of address lists: good pieces before a comma are cut as they are, whatever follows the comma.
pub fn good_pieces_are_cut_before_bad_ones()
    ensures { GoodPiecesAreCut }
{}

/// A law of `ignore` and `retain`: what is shown of a message, read as a message, has its From line, its body, and of its
/// entries exactly those that are kept.
pub fn kept_fields_are_shown()
    ensures { KeptAreShown }
{}

/// A law of escapes: one is refused for its argument exactly if that is missing, though it is named outside of brackets and
/// isn't `text`; or if one stands where none is named; or if `!` stands alone where a file or a command is read; or if a
/// quote in its words isn't closed.
pub fn bad_arguments_are_refused()
    ensures { BadAreRefused }
{}

/// Laws of summaries: a summary line has no line feed, whatever stands in its message; so the lines of a page are the summary
/// lines of its messages, one each.
pub fn summaries_are_lines()
    ensures line { SummaryIsALine }
    ensures page { PageIsLines }
{}

/// Laws of options. They have a mode exactly if they ask for it: for a trial, by `--try N` alone; whether there is mail, by
/// `-e` with `-i` and `-n` alone; to read, without operands or by `-f` with one at most; to send, by operands without
/// `-f`; each with those options that go with it. So it is with what the words of the command line ask for.
pub fn options_ask_for_one_mode()
    ensures modes { ModesAreAsked }
    ensures words { WantedIsAsked }
{}
