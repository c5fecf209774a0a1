use command_desk::Effects;
use quit_rules::BatchItem;

/// What a command puts into a file, and what follows once that was done.
#[derive(Drop)]
pub struct Filing {
    /// What is put at the end of the file, and what is printed then.
    pub put: BatchItem,
    /// What is changed then.
    pub effects: Effects,
}
