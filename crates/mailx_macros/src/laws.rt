ghost use Rattle.mailx_macros.specs.MacroLaws.{BodyIsFound, UndefTakes};

/// Laws of macros: a definition that is begun, given its lines and ended is found with these lines, and one that is
/// undefined is not; every other macro stays as it was.
pub fn macros_are_kept()
    ensures found { BodyIsFound }
    ensures takes { UndefTakes }
{}
