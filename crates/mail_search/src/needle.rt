ghost use Rattle.std.specs.Prelude.{◌≡◌, IfOk, OnOk};
ghost use Rattle.std.specs.Str.{str_to_ascii_lowercase};
ghost use Rattle.mail_text.specs.Holding.{holds_ascii};

use mail_text::{Memory, Text};
use memchr::memmem::{Finder, FinderBuilder};
use std::alloc::Global;
use std::marker::Model;

/// A string that texts are searched for, the case of ASCII letters aside. Contracts see its bytes.
#[derive(Drop)]
pub(crate) struct Needle {
    string: Text,
    // the search for the string in small letters
    finder: Finder<'static>,
}

impl Model for Needle {
    ghost use Rattle.std.specs.Prelude.{◌≡◌, List, ℕ};
    ghost use Rattle.std.specs.Str.{str_to_ascii_lowercase};

    ghost Value = { List ℕ };

    ghost view = { λ n. n.string };

    ghost invariant = { λ n. n.finder ≡ str_to_ascii_lowercase n.string };
}

impl Needle {
    /// The needle of this string. Fails only if memory runs out.
    pub(crate) fn of(alloc: Global, string: Text) -> Result<Needle, Memory>
        ensures { IfOk result (λ needle. needle ≡ string) }
    {
        let small = string.bytes().to_ascii_lowercase(alloc)?;
        let finder = FinderBuilder::new().build_forward_owned(small);
        Ok(Needle { string, finder })
    }

    /// Whether the string stands in the text, the case of ASCII letters aside; the empty string stands in each text.
    /// `small` gets the text in small letters. Fails only if memory runs out.
    pub(crate) fn stands_in(&self, text: &[u8], small: &mut Vec<u8>) -> Result<bool, Memory>
        ensures { IfOk result (λ stands. stands ≡ holds_ascii self.now text.now) }
    {
        if text.len() < self.string.bytes().len() {
            return Ok(false);
        }
        put_small(text, small)?;
        Ok(self.finder.find(small).is_some())
    }
}

// Puts the text in small letters in place of what is there.
fn put_small(text: &[u8], small: &mut Vec<u8>) -> Result<(), Memory>
    ensures { OnOk result (small.new.items ≡ str_to_ascii_lowercase text.now) }
{
    small.clear();
    small.extend_from_slice(text)?;
    small.make_ascii_lowercase();
    Ok(())
}
