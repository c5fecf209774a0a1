// Names that a host takes.
ghost use Rattle.std.specs.Prelude.{◌≡◌, ◌==◌, not, true};
ghost use Rattle.host_port.specs.Names.{IsFileName, has_no_zero};

fn is_no_zero(byte: u8) -> bool
    ensures { result ≡ not (byte == 0) }
{
    byte != 0
}

fn has_no_zero(name: &[u8]) -> bool
    ensures { result ≡ has_no_zero name.now }
{
    name.iter().all(|byte| is_no_zero(*byte))
}

/// Whether a host takes a name.
pub fn is_name(name: &[u8]) -> bool
    ensures { result ≡ true → IsFileName name.now }
{
    !name.is_empty() && name.len() <= 4_032 && has_no_zero(name)
}
