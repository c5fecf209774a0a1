ghost use Rattle.std.specs.Prelude.{◌≡◌};
ghost use Rattle.mail_text.specs.Number.{number_of};

/// The number that one or more decimal digits write, leading zeros allowed. `None` if a byte is no digit, if
/// there is none, or if the number needs more than 64 bits.
pub fn read_number(bytes: &[u8]) -> Option<u64>
    ensures { result ≡ number_of bytes.now }
{
    if !bytes.iter().all(|b| b.is_ascii_digit()) {
        return None;
    }
    match str::from_utf8(bytes) {
        Ok(text) => text.parse().ok(),
        Err(_) => None,
    }
}
