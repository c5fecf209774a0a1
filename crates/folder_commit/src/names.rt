// The names that files may have beside an actor's commits.
ghost use Rattle.std.specs.Prelude.{◌≡◌, codes};
ghost use Rattle.std.specs.Str.{bytes_eq};
ghost use Rattle.commit_machine.specs.Names.{right_name};
ghost use Rattle.folder_commit.specs.Names.{is_file_name};

use commit_machine::is_record_name;
use commit_record::is_lawful;

/// The end of the name of a right.
const RIGHT_END: &[u8] = b".right";

// Whether this is what a right's name has after the actor's.
fn is_right_end(end: &[u8]) -> bool
    ensures { result ≡ bytes_eq end.now (codes ".right") }
{
    end == RIGHT_END
}

// Whether a name is that of the actor's right.
fn is_right_name(actor: &[u8], name: &[u8]) -> bool
    ensures { result ≡ bytes_eq name.now (right_name actor.now) }
{
    match name.strip_prefix(actor) {
        Some(end) => is_right_end(end),
        None => false,
    }
}

/// Whether a commit of the actor may change a file of this name: it has 1 to 4,000 bytes, none of them zero, and is
/// neither one of the actor's own three nor the name of a lock or of a staged file. It takes no memory.
pub fn is_file_name(actor: &[u8], name: &[u8]) -> bool
    ensures { result ≡ is_file_name actor.now name.now }
{
    is_lawful(name) && !is_record_name(actor, name) && !is_right_name(actor, name)
}
