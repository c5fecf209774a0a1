// The standard input and output, which are waited for if they don't block.
ghost use Rattle.std.specs.Prelude.{◌≤◌, length, IfOk};

use std::io::{Error, ErrorKind, Read};
use std::time::{Clock, Duration};

/// The pause, in milliseconds, between two tries.
const PAUSE: u64 = 20;

// Waits a while if a stream isn't ready, or a signal came. Any other error is handed back.
fn wait_for<C: Clock>(clock: &C, error: Error) -> Result<(), Error> {
    match error.kind() {
        ErrorKind::Interrupted => Ok(()),
        ErrorKind::WouldBlock => {
            clock.sleep(Duration::from_millis(PAUSE));
            Ok(())
        }
        _ => Err(error),
    }
}

/// Takes input: how many bytes were put at the front of the buffer.
pub fn take<C: Clock, F: Read>(clock: &C, from: &mut F, buf: &mut [u8]) -> Result<usize, Error>
    ensures bound { IfOk result (λ n. n ≤ length buf.old) }
{
    for _ in 0..u64::MAX {
        match from.read(buf) {
            Ok(count) => return Ok(count),
            Err(error) => wait_for(clock, error)?,
        }
    }
    Err(Error::from(ErrorKind::TimedOut))
}

/// Writes output, all of it.
pub fn put<R: Print + Clock>(rt: &R, bytes: &[u8]) -> Result<(), Error> {
    let mut rest = bytes;
    for _ in 0..u64::MAX {
        if rest.is_empty() {
            return Ok(());
        }
        match rt.write_some(rest) {
            Ok(0) => return Err(Error::from(ErrorKind::WriteZero)),
            Ok(count) => rest = &rest[count..],
            Err(error) => wait_for(rt, error)?,
        }
    }
    Err(Error::from(ErrorKind::TimedOut))
}
