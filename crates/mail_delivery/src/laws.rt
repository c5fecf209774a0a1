ghost use Rattle.mail_delivery.specs.Laws.{AllAreNamed, DeliveredIsProper, DeliveriesReadBack, DoneStands, EachGetsOne, UsersAreOnce};

/// A law: the text of a delivery whose sender may be one can be put into a mailbox and read back as one message.
pub fn a_delivery_is_one_message()
    ensures { DeliveredIsProper }
{}

/// A law: a delivery to users each of whom is named once puts its text once behind the messages of each one's mailbox, if
/// that is one, and changes no other file.
pub fn each_gets_one()
    ensures { EachGetsOne }
{}

/// A law: the users of what words ask for are recipients, each named once; they are those whom the words name, all of
/// them and nobody else.
pub fn users_are_once()
    ensures once { UsersAreOnce }
    ensures all { AllAreNamed }
{}

/// A law: the text of a delivery has the From line, and then each line of the input, in order, with a `>` before one
/// that begins with `From `; only line feeds at its end are left out.
pub fn a_delivery_reads_back()
    ensures { DeliveriesReadBack }
{}

/// A law: after a delivery that is answered with 0 its text stands once behind what each user's mailbox held just before
/// its decision, if that was a mailbox, at each moment and at each disk that a stop leaves, until others change it.
pub fn done_stands()
    ensures { DoneStands }
{}
