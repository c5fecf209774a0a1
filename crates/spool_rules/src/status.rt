ghost use Rattle.std.specs.Prelude.{◌≡◌};
ghost use Rattle.spool_rules.specs.Statuses.{number_of, status_of};

use crate::port::Stop;

/// How a call of the helper ended.
#[derive(Clone, Copy, Debug, PartialEq, Eq)]
pub enum SpoolStatus {
    /// It was done, and lasts.
    Done,
    /// A lock stands, or nothing was staged.
    Standing,
    /// The words are no operation, mailbox and token.
    Usage,
    /// The input could not be read.
    InputFault,
    /// A call on the list of users or on the folder failed.
    DiskFault,
    /// What stands there isn't the caller's, or not under his lock.
    Refused,
    /// The mailbox isn't the caller's.
    NotCallers,
    Memory,
}

impl SpoolStatus {
    /// The number with which the program ends.
    pub fn number(&self) -> u8
        ensures { result ≡ number_of self.now }
    {
        match self {
            SpoolStatus::Done => 0,
            SpoolStatus::Standing => 1,
            SpoolStatus::Usage => 2,
            SpoolStatus::InputFault => 3,
            SpoolStatus::DiskFault => 5,
            SpoolStatus::Refused => 6,
            SpoolStatus::NotCallers => 7,
            SpoolStatus::Memory => 8,
        }
    }
}

/// The status of an operation that was carried out or not, or ended before its end.
pub(crate) fn status_of(ended: Result<bool, Stop>) -> SpoolStatus
    ensures { result ≡ status_of ended }
{
    match ended {
        Ok(true) => SpoolStatus::Done,
        Ok(false) => SpoolStatus::Standing,
        Err(Stop::Input) => SpoolStatus::InputFault,
        Err(Stop::Disk) => SpoolStatus::DiskFault,
        Err(Stop::Memory) => SpoolStatus::Memory,
        Err(Stop::Refused) => SpoolStatus::Refused,
    }
}
