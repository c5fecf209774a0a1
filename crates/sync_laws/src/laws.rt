ghost use Rattle.sync_laws.specs.Unsynced.{UnsyncedNamesAreHarmless};

/// While no record of an actor says that a commit was decided, any of the names that its run has made for the commit may be
/// gone, or be there again with whatever bytes: where a record is made, what is staged for the files that the record names,
/// and the record's locks on these files. Recovery leaves the same files and the same locks of others, and the disk is sound.
/// So these names need to last only from the decision on: they have to be synced before the record that says so is put in
/// place, and not each as it is made.
pub fn unsynced_names_are_harmless()
    ensures { UnsyncedNamesAreHarmless }
{}
