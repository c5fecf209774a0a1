ghost use Rattle.line_words.specs.Laws.{NamesOne, SpellingsName, EachIsNamed, NamesAscend, WordsAreCut, UncutHasNone, OpenHasNone, CutsAreOne, WordsReadBack};

/// Laws of the spellings: a word meets spellings of one command at most, which is the one that it names; what
/// stands before the bracket of a spelling names its command, and so does its whole name; each command has a name;
/// the whole names stand in the order of their bytes, each once.
pub fn a_word_names_one_command()
    ensures names_one { NamesOne }
    ensures spellings_name { SpellingsName }
    ensures each_is_named { EachIsNamed }
    ensures names_ascend { NamesAscend }
{}

/// Laws of words: the words of a line are those into which it is cut, if it is parts, one after the other: blanks,
/// plain bytes, bytes after a backslash, and runs between two quotes. A line has none exactly if it can't be cut,
/// and exactly if a quote in it isn't closed. It is cut into one list of words at most.
pub fn lines_are_cut_into_words()
    ensures cut { WordsAreCut }
    ensures uncut { UncutHasNone }
    ensures unclosed { OpenHasNone }
    ensures one { CutsAreOne }
{}

/// A law: words that are written one after the other, with a space between one and the next, are cut into these words
/// again, if each is written as it is, when it is plain and not empty, or between quotes that it lacks.
pub fn words_read_back()
    ensures { WordsReadBack }
{}
