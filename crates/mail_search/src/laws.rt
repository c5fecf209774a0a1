ghost use Rattle.std.specs.Prelude.{◌≡◌, ℕ, List};
ghost use Rattle.mail_search.specs.Criteria.{CriteriaAreFound, OthersHaveNone};
ghost use Rattle.mail_search.specs.Grammar.{IsCriterion};
ghost use Rattle.mail_search.specs.Keys.{Key};

/// A law: a word has at most one criterion.
pub fn one_criterion()
    ensures { (word : List ℕ) (a b : Key) → IsCriterion word a → IsCriterion word b → a ≡ b }
{}

/// Laws: the criterion of a word is found exactly if the grammar has it for the word, and none exactly if it has none.
pub fn criteria_are_found()
    ensures found { CriteriaAreFound }
    ensures none { OthersHaveNone }
{}
