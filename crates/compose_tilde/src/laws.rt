ghost use Rattle.compose_tilde.specs.Laws.{LettersAscend, BodyTakesLine, BodyIsLines, BodyKeepsLines, TwiceIsOnce, LinesStayFlat, AnswersStayFlat, AnswersKeep};

/// A law: the letters of the escapes stand in the order of their bytes, each once.
pub fn each_letter_stands_for_one_escape()
    ensures { LettersAscend }
{}

/// Laws of lines that don't end the draft and begin with no escape byte, when neither `~h` nor the terminal asks for a
/// value: such a line is put at the end of the body with a line feed, and no other part of the draft changes; and what
/// such lines put there, one after the other, are just these lines. One that begins with the escape byte twice is put
/// there without the first of them. And whatever a body takes begins on a line of its own: the body's lines are those
/// that it had, and then those of what it takes.
pub fn lines_make_the_body()
    ensures one { BodyTakesLine }
    ensures all { BodyIsLines }
    ensures twice { TwiceIsOnce }
    ensures apart { BodyKeepsLines }
{}

/// Laws: if no part of a draft but its body holds a line feed, none does after a line, and none after an answer; and
/// an answer changes no part of the draft but its body.
pub fn no_part_but_the_body_holds_a_line_feed()
    ensures lines { LinesStayFlat }
    ensures answers { AnswersStayFlat }
    ensures kept { AnswersKeep }
{}
