ghost use Rattle.std.specs.Prelude.{◌≡◌, IfOk};
ghost use Rattle.mail_text.specs.Holding.{holds_ascii};

use crate::Memory;
use memchr::memmem;
use std::alloc::Global;

/// Whether the string stands in the text, the case of ASCII letters aside; the empty string stands in each text. It
/// takes memory for a copy of each, and fails only if memory runs out.
pub fn holds_ascii(alloc: Global, string: &[u8], text: &[u8]) -> Result<bool, Memory>
    ensures { IfOk result (λ found. found ≡ holds_ascii string.now text.now) }
{
    if text.len() < string.len() {
        return Ok(false);
    }
    let string = string.to_ascii_lowercase(alloc)?;
    let text = text.to_ascii_lowercase(alloc)?;
    Ok(memmem::find(&text, &string).is_some())
}
