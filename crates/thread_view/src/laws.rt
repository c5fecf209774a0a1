ghost use Rattle.thread_view.specs.ViewLaws.{AnswersAreTogether, AnswersFollow, ViewsAreAlike};

/// Laws of threads (RFC 5322, section 3.6.4): a message stands before those under it, and they stand together after it.
pub fn threads_stand_together()
    ensures follow { AnswersFollow }
    ensures together { AnswersAreTogether }
{}

/// Messages have one view of a kind: rows and a kind fix the order, and how many messages each stands under.
pub fn views_are_alike()
    ensures { ViewsAreAlike }
{}
