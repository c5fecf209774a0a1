/// What brought lines from elsewhere.
#[derive(Clone, Copy, Debug, PartialEq, Eq)]
pub enum FrameKind {
    /// The start of the run: they are a start-up file's.
    Startup,
    /// The command `source`.
    Source,
    /// The command `call`: they are a macro's.
    Call,
}
