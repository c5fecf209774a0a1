// What the program looks at outside: variables, the working folder, its input, which may be a terminal; and the name of the
// file that the input of its children stands in.
use mail_text::{Memory, Text};
use std::alloc::Global;
use std::io;
use std::io::ErrorKind;
use std::process::{Command, ExitStatus, Processes};
use std::rt::Env;

/// The variables that a run looks at.
pub const NAMES: [&str; 12] = [
    "HOME", "LOGNAME", "MAIL", "MAILRC", "MBOX", "DEAD", "LISTER", "SHELL", "EDITOR", "VISUAL",
    "TZ", "COLUMNS",
];

/// The room for the name of a folder.
const ROOM: usize = 4096;

/// The name of the working folder; empty if the system can't tell it, as when the folder was removed.
pub fn working_folder<E: Env>(env: &E, alloc: Global) -> Result<Text, Memory> {
    let mut buf = vec![in alloc; 0u8; ROOM]?;
    match env.current_dir(&mut buf) {
        Ok(n) => Text::copy(alloc, &buf[..n.min(buf.len())]),
        Err(_) => Ok(Text::new(alloc)),
    }
}

// How a shell ends that tests whether its input, which is the program's own, is a terminal.
fn test_input<P: Processes>(processes: &P, alloc: Global) -> io::Result<ExitStatus> {
    let mut command = Command::new(alloc, "/bin/sh")?;
    command.arg("-c")?;
    command.arg("test -t 0")?;
    command.status(processes)
}

/// Whether the input is a terminal. It is none if the shell that tests it can't be run.
pub fn is_terminal<P: Processes>(processes: &P, alloc: Global) -> Result<bool, Memory> {
    match test_input(processes, alloc) {
        Ok(status) => Ok(status.success()),
        Err(error) if error.kind() == ErrorKind::OutOfMemory => Err(Memory),
        Err(_) => Ok(false),
    }
}

// The home folder.
fn home(pairs: &[(Text, Text)]) -> &[u8] {
    for (name, value) in pairs {
        if name.bytes() == b"HOME".as_slice() {
            return value.bytes();
        }
    }
    b""
}

/// The name of the file that the input of children stands in: `.mailx.in.` and the token's 16 hexadecimal digits, in
/// the home folder.
pub fn scratch_name(alloc: Global, pairs: &[(Text, Text)], token: u64) -> Result<Text, Memory> {
    let mut name = Text::copy(alloc, home(pairs))?;
    let last = format!(in alloc; "/.mailx.in.{token:016x}")?;
    name.push(last.as_bytes())?;
    Ok(name)
}
