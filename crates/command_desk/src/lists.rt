// Texts as they are listed and taken over.
ghost use Rattle.std.specs.Prelude.{◌≡◌, ◌++◌, IfOk, OnOk};
ghost use Rattle.std.specs.List.{flat_map};
ghost use Rattle.mail_text.specs.Lines.{with_feed};

use mail_text::{Items, Memory, Text};
use std::alloc::Global;

/// Texts, one a line.
pub fn as_lines(alloc: Global, texts: &[Text]) -> Result<Text, Memory>
    ensures { IfOk result (λ t. t ≡ flat_map with_feed texts.now) }
{
    let mut out = Text::new(alloc);
    put_lines(&mut out, texts)?;
    Ok(out)
}

/// Puts texts, one a line.
pub fn put_lines(out: &mut Text, texts: &[Text]) -> Result<(), Memory>
    ensures { OnOk result (out.new ≡ out.old ++ flat_map with_feed texts.now) }
{
    for text in texts {
        out.push(text.bytes())?;
        out.push(b"\n")?;
    }
    Ok(())
}

/// A copy of texts.
pub fn copies(alloc: Global, texts: &[Text]) -> Result<Items<Text>, Memory>
    ensures { IfOk result (λ copies. copies ≡ texts.now) }
{
    let mut copies = Items::new(alloc);
    for text in texts {
        copies.push(Text::copy(alloc, text.bytes())?)?;
    }
    Ok(copies)
}
