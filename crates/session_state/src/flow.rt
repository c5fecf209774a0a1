use crate::Status;

/// How a run goes on after a line.
#[derive(Clone, Copy, Debug, PartialEq, Eq)]
pub enum Flow {
    /// With the next line.
    Go,
    /// Not at all.
    End(Status),
}
