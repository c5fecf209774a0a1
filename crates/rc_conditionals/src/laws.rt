ghost use Rattle.rc_conditionals.specs.TurnLaws.{ClosedAsBefore, ElseIsTheOther, DeadInside};

/// Laws of conditions: one that is opened and closed, with its else or without, leaves the others as they were; of
/// the lines before and after an else, one part and not the other is carried out if the line before the `if` would
/// have been; and nothing is carried out inside of what isn't.
pub fn conditions_nest()
    ensures closed { ClosedAsBefore }
    ensures other { ElseIsTheOther }
    ensures dead { DeadInside }
{}
