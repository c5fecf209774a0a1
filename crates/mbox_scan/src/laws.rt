ghost use Rattle.std.specs.Prelude.{◌≡◌, ◌↔◌, ℕ, List, Some, All, true};
ghost use Rattle.mbox_scan.specs.Mailbox.{list_of, is_message, join, IsProper};

/// Texts that are proper are read back as they were written.
pub fn list_of_join()
    ensures { (l : List (List ℕ)) → All IsProper l → list_of (join l) ≡ Some l }
{}

/// Each text of a mailbox is proper, so it can be written and read back.
pub fn texts_are_proper()
    ensures { (b : List ℕ) (l : List (List ℕ)) → list_of b ≡ Some l → All IsProper l }
{}

/// Bytes are one message exactly if they are a proper text.
pub fn messages_are_proper()
    ensures { (t : List ℕ) → (is_message t ≡ true) ↔ IsProper t }
{}
