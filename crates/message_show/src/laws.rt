ghost use Rattle.message_show.specs.ShownText.{AllIsWhole};

/// A law: with all fields, the shown text of a message is its text, if that ends in no line feed.
pub fn all_fields_make_the_text()
    ensures { AllIsWhole }
{}
