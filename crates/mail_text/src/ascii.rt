ghost use Rattle.std.specs.Prelude.{◌≡◌};
ghost use Rattle.mail_text.specs.Ascii.{is_blank, same_ascii};

/// Whether the byte is a blank: a space or a tab.
pub fn is_blank(byte: u8) -> bool
    ensures { result ≡ is_blank byte }
{
    byte == b' ' || byte == b'\t'
}

/// Whether two texts are the same, the case of ASCII letters aside. Bytes over 127 are compared as they are.
pub fn same_ascii(a: &[u8], b: &[u8]) -> bool
    ensures { result ≡ same_ascii a.now b.now }
{
    a.eq_ignore_ascii_case(b)
}
