ghost use Rattle.commit_record.specs.Laws.{OneReading};

/// A law: bytes are the text of one valid record at most.
pub fn a_text_has_one_record()
    ensures { OneReading }
{}
