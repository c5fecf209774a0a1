ghost use Rattle.std.specs.Prelude.{◌≡◌};
ghost use Rattle.mailx_top.specs.Statuses.{status_at_stop, line_at_stop};

use mailx_session::Status;
use session_play::Stop;

pub(crate) fn stop_status(cause: Stop) -> Status
    ensures { result ≡ status_at_stop cause }
{
    match cause {
        Stop::Input => Status::InputFault,
        Stop::Output => Status::OutputFault,
        Stop::Disk => Status::DiskFault,
        Stop::TooMuch => Status::InputLimit,
        Stop::Memory => Status::Memory,
    }
}

pub(crate) fn stop_line(cause: Stop) -> &'static [u8]
    ensures { result.now ≡ line_at_stop cause }
{
    match cause {
        Stop::Input => b"mailx: input fault\n",
        Stop::Output => b"mailx: output fault\n",
        Stop::Disk => b"mailx: disk fault\n",
        Stop::TooMuch => b"mailx: too much input\n",
        Stop::Memory => b"mailx: out of memory\n",
    }
}
