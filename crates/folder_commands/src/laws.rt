ghost use Rattle.folder_commands.specs.Making.{MadeIsApplied};

/// What the changes that are of a file make of it, in order, is what all of the changes make of it.
pub fn made_is_applied()
    ensures { MadeIsApplied }
{}
