ghost use Rattle.std.specs.Prelude.{◌≡◌};
ghost use Rattle.std.specs.List.{list_all};
ghost use Rattle.mailx_vars.specs.Names.{is_graphic, is_short, is_short_name, is_user_name, is_variable_byte, is_variable_name};

/// The most bytes of a file name.
const NAME_LIMIT: usize = 4_000;

fn has_variable_bytes(name: &[u8]) -> bool
    ensures { result ≡ list_all is_variable_byte name.now }
{
    name.iter().all(|b| *b >= 33 && *b <= 126 && *b != b'=')
}

fn has_graphic_bytes(name: &[u8]) -> bool
    ensures { result ≡ list_all is_graphic name.now }
{
    name.iter().all(|b| *b >= 33 && *b != 127)
}

fn is_short(name: &[u8]) -> bool
    ensures { result ≡ is_short name.now }
{
    !name.is_empty() && name.len() <= NAME_LIMIT
}

/// Whether a variable may have this name: it has a byte, and each is from 33 to 126 and no `=`.
pub fn is_variable_name(name: &[u8]) -> bool
    ensures { result ≡ is_variable_name name.now }
{
    !name.is_empty() && has_variable_bytes(name)
}

/// Whether these bytes can be a file's name for the host: there are 1 to 4,000, none of them zero.
pub fn is_short_name(name: &[u8]) -> bool
    ensures { result ≡ is_short_name name.now }
{
    is_short(name) && !name.contains(&0)
}

/// Whether these bytes can be a user's name: there are 1 to 4,000, none of them below 33 or 127.
pub fn is_user_name(name: &[u8]) -> bool
    ensures { result ≡ is_user_name name.now }
{
    is_short(name) && has_graphic_bytes(name)
}
