/// How a run ends.
#[derive(Clone, Copy, Debug, PartialEq, Eq)]
pub enum Status {
    /// The session ended by its meaning.
    Done,
    /// There is no mail in the system mailbox.
    NoMail,
    /// The words of the command line or the environment are refused.
    Usage,
    /// Input could not be read.
    InputFault,
    /// Output could not be written.
    OutputFault,
    /// A file could not be read, or written.
    DiskFault,
    /// A draft wasn't sent: its names were refused, or the sender could not be run, or ended with this status, which is
    /// not 0.
    NotSent { status: Option<i32> },
    /// Another has the lock of the folder, or the quit at the end of the input, a record or a dead letter was refused.
    Refused,
    /// Out of memory.
    Memory,
    /// More input was taken than a run may take.
    InputLimit,
    /// There is no folder of that name to open.
    NoFolder,
    /// What stands as the record of commits can't be read as one, or it or a staged file is too large to load.
    BadRecord,
}

impl Status {
    ghost use Rattle.std.specs.Prelude.{◌≡◌};
    ghost use Rattle.session_state.specs.Statuses.{status_number};

    /// The exit status of the program.
    pub fn number(&self) -> u8
        ensures { result ≡ status_number self.now }
    {
        match self {
            Status::Done => 0,
            Status::NoMail => 1,
            Status::Usage => 2,
            Status::InputFault => 3,
            Status::OutputFault => 4,
            Status::DiskFault => 5,
            Status::NotSent { .. } => 6,
            Status::Refused => 7,
            Status::Memory => 8,
            Status::InputLimit => 9,
            Status::NoFolder => 10,
            Status::BadRecord => 11,
        }
    }
}
