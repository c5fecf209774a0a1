// Aliases as they are listed.
ghost use Rattle.std.specs.Prelude.{◌≡◌, ◌++◌, OnOk};
ghost use Rattle.alias_groups.specs.Listing.{alias_line, spaced};

use mail_text::{Memory, Text};

// Puts words, each after a space.
fn put_spaced(out: &mut Text, words: &[Text]) -> Result<(), Memory>
    ensures { OnOk result (out.new ≡ out.old ++ spaced words.now) }
{
    for word in words {
        out.push(b" ")?;
        out.push(word.bytes())?;
    }
    Ok(())
}

// Puts an alias as it is listed.
pub(crate) fn put_alias(out: &mut Text, name: &[u8], members: &[Text]) -> Result<(), Memory>
    ensures { OnOk result (out.new ≡ out.old ++ alias_line (name.now, members.now)) }
{
    out.push(b"alias ")?;
    out.push(name)?;
    put_spaced(out, members)?;
    out.push(b"\n")
}
