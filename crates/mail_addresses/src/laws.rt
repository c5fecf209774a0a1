ghost use Rattle.std.specs.Prelude.{◌≡◌, ◌≢◌, ◌⊎◌, [], ◌++◌, ◌∷◌, ℕ, List};
ghost use Rattle.mail_addresses.specs.declared.address.Address.{Address};
ghost use Rattle.mail_addresses.specs.Lexical.{Lexeme, comment, quoted, texts, AreTokens};
ghost use Rattle.mail_addresses.specs.Balance.{IsBalanced, HasNoQuote};
ghost use Rattle.mail_addresses.specs.Listing.{pieces, joined, Lists, Spells, Reads, IsFault};

/// A law: a value has at most one list of addresses and at most one first bad piece, and never both.
pub fn one_reading()
    ensures list { (value : List ℕ) (a b : List Address)
        → Reads value a → Reads value b → a ≡ b }
    ensures fault { (value : List ℕ) (m n : ℕ)
        → IsFault value m → IsFault value n → m ≡ n }
    ensures either { (value : List ℕ) (list : List Address) (at : ℕ)
        → Reads value list → IsFault value at → ⊥ }
{}

/// A law: each value has a list of addresses, or a first bad piece.
pub fn each_value_is_read()
    ensures { (value : List ℕ) → ((list : List Address) × Reads value list) ⊎ ((at : ℕ) × IsFault value at) }
{}

/// A law: the tokens of a value, joined, are the value, and it has no others.
pub fn tokens_are_the_value()
    ensures joined { (value : List ℕ) (ts : List Lexeme)
        → AreTokens value ts → texts ts ≡ value }
    ensures one { (value : List ℕ) (ts us : List Lexeme)
        → AreTokens value ts → AreTokens value us → ts ≡ us }
{}

/// A law: in a comment as many parentheses are closed as are opened, and at no place more are closed than opened
/// before it; what a backslash takes doesn't count.
pub fn comments_are_balanced()
    ensures { (value : List ℕ) (ts front back : List Lexeme) (inside : List ℕ)
        → AreTokens value ts → ts ≡ front ++ comment inside ∷ back → IsBalanced inside }
{}

/// A law: a quoted string ends at its first quote that no backslash takes.
pub fn quoted_strings_end_at_a_quote()
    ensures { (value : List ℕ) (ts front back : List Lexeme) (inside : List ℕ)
        → AreTokens value ts → ts ≡ front ++ quoted inside ∷ back → HasNoQuote inside }
{}

/// A law: pieces that give addresses, with a comma between one and the next, are cut into the same pieces again.
pub fn pieces_are_cut_again()
    ensures { (list : List (List Lexeme)) (all : List Address)
        → list ≢ [] → Lists Spells list all → pieces (joined list) ≡ list }
{}

/// A law: pieces with a comma between one and the next are the tokens that were cut.
pub fn pieces_are_the_tokens()
    ensures { (ts : List Lexeme) → joined (pieces ts) ≡ ts }
{}
