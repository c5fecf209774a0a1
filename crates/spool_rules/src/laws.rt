// Laws of lawful calls.
ghost use Rattle.std.specs.Prelude.{ℕ, List};
ghost use Rattle.spool_rules.specs.declared.port.Step.{Step};
ghost use Rattle.spool_rules.specs.declared.words.Request.{Request};
ghost use Rattle.spool_rules.specs.Lawful.{IsLawful};
ghost use Rattle.spool_rules.specs.Laws.{IsOthers, Spares};

/// A law: no lawful call is about the mailbox of another user, who stands in the list of users that was read.
pub fn no_call_concerns_another()
    ensures { (n : ℕ) (r : Request) (name : List ℕ) (steps : List Step)
        → IsLawful n r steps → IsOthers n name steps → Spares name steps }
{}
