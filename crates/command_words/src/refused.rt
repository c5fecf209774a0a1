// What `clap` reads and the command line has not: `-` alone, and a short option's value that begins with `=` in its
// word.
ghost use Rattle.std.specs.Prelude.{◌≡◌, map};
ghost use Rattle.std.specs.List.{list_any};
ghost use Rattle.command_words.specs.Words.{begins_with_equals, equals_in, has_equals, is_dash, is_equals_word, is_refused, is_valued};

// The letter of an option with a value.
fn is_valued_byte(c: u8) -> bool
    ensures { result ≡ is_valued c }
{
    c == b'u' || c == b's' || c == b'b' || c == b'c'
}

// Whether the bytes begin with `=`.
fn begins_equals(rest: &[u8]) -> bool
    ensures { result ≡ begins_with_equals rest.now }
{
    match rest {
        [c, ..] => *c == b'=',
        [] => false,
    }
}

// Whether the first option with a value has one that begins with `=`.
fn has_equals_value(bundle: &[u8]) -> bool
    ensures { result ≡ equals_in bundle.now }
{
    for (i, c) in bundle.iter().enumerate() {
        if is_valued_byte(*c) {
            let (_, rest) = bundle.split_at(i + 1);
            return begins_equals(rest);
        }
    }
    false
}

// Whether the word is a bundle of options of which one has such a value.
fn is_equals(word: &str) -> bool
    ensures { result ≡ is_equals_word word.now }
{
    match word.as_bytes() {
        [b'-', rest @ ..] => has_equals_value(rest),
        _ => false,
    }
}

// Whether a word is `-` alone.
fn has_dash(words: &[&str]) -> bool
    ensures { result ≡ list_any (λ w. is_dash w.now) words.now }
{
    words.iter().any(|w| *w == "-")
}

// Whether a word before `--` has such a value.
fn has_equals_word(words: &[&str]) -> bool
    ensures { result ≡ has_equals (map (λ s. s.now) words.now) }
{
    for word in words {
        if *word == "--" {
            return false;
        }
        if is_equals(word) {
            return true;
        }
    }
    false
}

// Whether a word is refused.
pub(crate) fn is_refused_list(words: &[&str]) -> bool
    ensures { result ≡ is_refused (map (λ s. s.now) words.now) }
{
    let dash = has_dash(words);
    let equals = has_equals_word(words);
    dash || equals
}
