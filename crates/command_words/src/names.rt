// The names of an option's value.
ghost use Rattle.std.specs.Prelude.{◌≡◌, ◌++◌, IfOk};
ghost use Rattle.command_words.specs.Names.{parts_names, kept, names_in};

use mail_text::{Items, Memory, Text, is_blank};
use std::alloc::Global;
use std::mem;

// Whether a byte stands between names: a blank or a comma.
fn parts_names(byte: u8) -> bool
    ensures { result ≡ parts_names byte }
{
    is_blank(byte) || byte == b','
}

// Puts a name after others, if it has bytes.
fn keep(names: &mut Items<Text>, name: Text) -> Result<(), Memory>
    ensures { IfOk result (λ _. names.new ≡ names.old ++ kept name) }
{
    if name.bytes().is_empty() {
        Ok(())
    } else {
        names.push(name)
    }
}

/// The names of a value of `-b` or `-c`, which blanks and commas separate.
pub fn names_in(alloc: Global, value: &[u8]) -> Result<Items<Text>, Memory>
    ensures { IfOk result (λ names. names ≡ names_in value.now) }
{
    let mut names = Items::new(alloc);
    let mut name = Text::new(alloc);
    for byte in value {
        if parts_names(*byte) {
            keep(&mut names, mem::replace(&mut name, Text::new(alloc)))?;
        } else {
            name.push(&[*byte])?;
        }
    }
    keep(&mut names, name)?;
    Ok(names)
}
