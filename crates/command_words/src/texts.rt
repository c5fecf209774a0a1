ghost use Rattle.std.specs.Prelude.{◌≡◌, map, true, false, IfOk, Err};
ghost use Rattle.std.specs.List.{list_all};
ghost use Rattle.std.specs.Str.{is_utf8};

use crate::error::WordsError;
use mail_text::Text;
use std::alloc::Global;

// The words as text. `Usage` comes if one isn't UTF-8.
pub(crate) fn texts<'a>(alloc: Global, words: &'a [Text]) -> Result<Vec<&'a str>, WordsError>
    ensures texts { IfOk result (λ texts. map (λ text. text.now) texts.items ≡ words.now) }
    ensures utf8 { IfOk result (λ texts. list_all is_utf8 words.now ≡ true) }
    ensures usage { result ≡ Err WordsError.Usage → list_all is_utf8 words.now ≡ false }
{
    let mut texts = Vec::with_capacity(alloc, words.len())?;
    for word in words {
        match str::from_utf8(word.bytes()) {
            Ok(text) => texts.push_reserved(text),
            Err(_) => return Err(WordsError::Usage),
        }
    }
    Ok(texts)
}
