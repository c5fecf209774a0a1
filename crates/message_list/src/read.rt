ghost use Rattle.std.specs.Prelude.{◌≡◌, ◌++◌, ◌∷◌, [], IfOk, IfErr, OnOk};
ghost use Rattle.message_list.specs.ListWords.{kind_of, AreItems, IsBadList, IsBadWord};

use crate::kind::kind_of;
use crate::list::{Item, ListError, ListSpec};
use mail_text::{Items, Memory, Text};
use std::alloc::Global;

/// Reads the words of a message list: the items are the words in order, each with its kind. `Syntax` comes exactly
/// if a word is bad, and names the first such word: the empty word, a word that begins with `(` and is no search
/// criterion, `/` alone, and `:` with anything but one of the letters `adfnortu` after it.
pub fn read_list(alloc: Global, words: &[Text]) -> Result<ListSpec, ListError>
    ensures ok { IfOk result (λ list. AreItems words.now list.items) }
    ensures err { IfErr result (IsBadList words.now) }
{
    let mut items = Items::new(alloc);
    for word in words {
        let kind = kind_of(alloc, word.bytes())?;
        match kind {
            Some(kind) => {
                let word = Text::copy(alloc, word.bytes())?;
                items.push(Item { word, kind })?;
            }
            None => return Err(bad_word(alloc, word)),
        }
    }
    Ok(ListSpec { items })
}

// The refusal of a bad word.
fn bad_word(alloc: Global, word: &Text) -> ListError
    ensures { IsBadWord word.now result }
{
    match Text::copy(alloc, word.bytes()) {
        Ok(word) => ListError::Syntax { word },
        Err(Memory) => ListError::Memory,
    }
}
