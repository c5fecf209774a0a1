ghost use Rattle.std.specs.Prelude.{◌≡◌, ◌≢◌, ℕ, List, [], ◌∷◌, ◌++◌, map, Some, None};
ghost use Rattle.std.specs.List.{flat_map};
ghost use Rattle.mail_text.specs.Lines.{with_feed, fed};
ghost use Rattle.mail_headers.specs.Header.{from_line, header_lines, body_of, entries_of, entry_bytes, text_of, EndsInNoFeed};

/// A law: the From line, the lines of the header in order, each with its line feed, and the body after an empty line
/// make the text again; without a body they make the text with a line feed at its end. A text that ends in no line feed
/// is its parts joined by line feeds.
pub fn parts_make_the_text()
    ensures with_body { (text body : List ℕ) → body_of text ≡ Some body
        → flat_map with_feed (from_line text ∷ header_lines text) ++ 10 ∷ body ≡ text }
    ensures without_body { (text : List ℕ) → body_of text ≡ None → text ≢ []
        → flat_map with_feed (from_line text ∷ header_lines text) ≡ fed text }
    ensures joined { (text : List ℕ) → EndsInNoFeed text
        → text_of (from_line text) (header_lines text) (body_of text) ≡ text }
{}

/// A law: the entries of a header in order, each with a line feed, are its lines in order, each with its line feed: no
/// byte is lost and none is added.
pub fn entries_make_the_header()
    ensures { (text : List ℕ)
        → flat_map with_feed (map entry_bytes (entries_of text)) ≡ flat_map with_feed (header_lines text) }
{}
