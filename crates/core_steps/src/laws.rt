ghost use Rattle.core_steps.specs.Shown.{BracketsAreSteps};

/// Events that are, one by one, the calls of a commit or of a recovery are the steps of an actor that began with it.
pub fn brackets_are_steps()
    ensures { BracketsAreSteps }
{}
