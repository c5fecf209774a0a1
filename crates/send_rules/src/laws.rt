ghost use Rattle.send_rules.specs.AddressingLaws.{AddresseesInOrder};

/// A law of whom a draft goes to: To shows what its names stand for, Cc what its names add after that, and the names of
/// Bcc add further recipients after both. So each name that is shown is sent to, and nobody is left out.
pub fn addressees_in_order()
    ensures { AddresseesInOrder }
{}
