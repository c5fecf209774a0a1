use thiserror::Error;

/// Why a condition isn't opened, turned or closed.
#[derive(Clone, Copy, Debug, PartialEq, Eq, Error)]
pub enum CondError {
    /// 16 conditions are open.
    #[error("conditions nest too deep")]
    TooDeep,
    /// No condition is open, or the innermost has had its else.
    #[error("else without if")]
    ElseWithoutIf,
    /// No condition is open.
    #[error("endif without if")]
    EndWithoutIf,
    /// The test is none of `s`, `r` and `t`.
    #[error("bad condition")]
    BadTest,
}
