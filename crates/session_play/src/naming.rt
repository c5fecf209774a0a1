// The names of files that a commit is to change.
ghost use Rattle.std.specs.Prelude.{◌≡◌};
ghost use Rattle.session_play.specs.Naming.{target_fault};

use folder_commit::is_file_name;
use mailx_vars::is_short_name;

/// What is wrong with the name of a file that a commit is to change.
#[derive(Clone, Copy, Debug, PartialEq, Eq)]
pub enum NameFault {
    /// It is empty, has more than 4,000 bytes, or holds a zero byte.
    Bad,
    /// It is one of the actor's own, or none that a record of commits takes.
    Reserved,
}

/// What is wrong with the name of a file that a commit of this actor is to change; None if nothing is.
pub fn target_fault(actor: &[u8], name: &[u8]) -> Option<NameFault>
    ensures { result ≡ target_fault actor.now name.now }
{
    if !is_short_name(name) {
        Some(NameFault::Bad)
    } else if !is_file_name(actor, name) {
        Some(NameFault::Reserved)
    } else {
        None
    }
}
