ghost use Rattle.std.specs.Prelude.{◌≡◌};
ghost use Rattle.mail_delivery.specs.Statuses.{number_of, status_at};

use session_play::Stop;

/// How a delivery ended.
#[derive(Clone, Copy, Debug, PartialEq, Eq)]
pub enum DeliverStatus {
    /// The message stands in the mailbox of each user.
    Done,
    /// The words are no sender and users, or the sender is none.
    Usage,
    /// The input could not be read.
    InputFault,
    /// A call on the disk failed; the message may stand in all mailboxes.
    DiskFault,
    /// Another has a lock or the right, or a mailbox is too large.
    Refused,
    /// Memory ran out.
    Memory,
    /// There were more than 67,108,864 bytes of input.
    InputLimit,
    /// The record of commits can't be read, or it or a staged file is too large.
    BadRecord,
}

impl DeliverStatus {
    /// The number with which the program ends. It takes no memory.
    pub fn number(&self) -> u8
        ensures { result ≡ number_of self.now }
    {
        match self {
            DeliverStatus::Done => 0,
            DeliverStatus::Usage => 2,
            DeliverStatus::InputFault => 3,
            DeliverStatus::DiskFault => 5,
            DeliverStatus::Refused => 7,
            DeliverStatus::Memory => 8,
            DeliverStatus::InputLimit => 9,
            DeliverStatus::BadRecord => 11,
        }
    }
}

/// The status of a run that ended so, or was cut off.
pub(crate) fn status_at(out: Result<DeliverStatus, Stop>) -> DeliverStatus
    ensures { result ≡ status_at out }
{
    match out {
        Ok(status) => status,
        Err(Stop::Input) => DeliverStatus::InputFault,
        Err(Stop::Disk) => DeliverStatus::DiskFault,
        Err(Stop::TooMuch) => DeliverStatus::InputLimit,
        Err(Stop::Memory) | Err(Stop::Output) => DeliverStatus::Memory,
    }
}
