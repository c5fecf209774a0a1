// The helper mail_spool, which has the right of the folder of mailboxes: it does there for its caller what the system
// refused him.
use crate::kinds::{denial, is_empty_place, is_one_file};
use crate::paths::{folder_of, last_part};
use crate::reasons::FileError;
use crate::rights::Rights;
use std::alloc::Global;
use std::fs::{File, Files};
use std::io::{Error, ErrorKind, Write};
use std::process::{Command, Processes, Stdio};

/// The folder of mailboxes, which is fixed in the helper too.
pub const FOLDER: &str = "/var/mail";

/// The name of the helper, which stands beside the program.
const NAME: &str = "mail_spool";

/// The link to the program that runs.
const PROGRAM: &str = "/proc/self/exe";

/// What the helper does to a mailbox.
#[derive(Clone, Copy)]
pub enum Operation {
    Lock,
    Unlock,
    Stage,
    Publish,
    Erase,
    Discard,
}

/// What is asked for: an operation on a file by the token with these digits, and the bytes that are to be staged.
#[derive(Clone, Copy)]
pub struct Errand<'a> {
    pub operation: Operation,
    pub file: &'a str,
    pub digits: &'a str,
    pub input: &'a [u8],
}

/// How a run asks the helper. Until its end the helper has the run's right open too: if the run is stopped meanwhile, the
/// next one waits for the helper.
#[derive(Clone, Copy)]
pub struct Helper<'a> {
    pub alloc: Global,
    pub rights: &'a Rights,
}

impl<'a> Errand<'a> {
    /// An errand for which nothing is to be staged.
    pub fn of(operation: Operation, file: &'a str, digits: &'a str) -> Errand<'a> {
        Errand {
            operation,
            file,
            digits,
            input: b"",
        }
    }
}

// The word of an operation.
fn word_of(operation: Operation) -> &'static str {
    match operation {
        Operation::Lock => "lock",
        Operation::Unlock => "unlock",
        Operation::Stage => "stage",
        Operation::Publish => "publish",
        Operation::Erase => "erase",
        Operation::Discard => "discard",
    }
}

// The path of the helper, if anything stands there.
fn helper_path<R: Files>(rt: &R, alloc: Global) -> Result<Option<String>, FileError> {
    let Ok(program) = rt.read_link(alloc, PROGRAM) else {
        return Ok(None);
    };
    let program = program.into_string();
    let folder = folder_of(program.as_str());
    let name = NAME;
    let path = format!(in alloc; "{folder}/{name}")?;
    if is_empty_place(rt, path.as_str()) {
        return Ok(None);
    }
    Ok(Some(path))
}

// The command that runs the helper. It writes nothing to its output.
fn command_of(
    alloc: Global,
    path: &str,
    errand: &Errand<'_>,
    right: File,
) -> Result<Command, FileError> {
    let mut command = Command::new(alloc, path)?;
    command.arg(word_of(errand.operation))?;
    command.arg(last_part(errand.file))?;
    command.arg(errand.digits)?;
    command.stdin(Stdio::piped());
    command.stdout(right);
    Ok(command)
}

// Runs the helper to its end, and hands it the input. Its status, or none if it was killed or says that it was done
// before it had all.
fn run_helper<P: Processes>(
    processes: &P,
    command: &mut Command,
    input: &[u8],
) -> Result<Option<i32>, Error> {
    let mut child = command.spawn(processes)?;
    let given = match child.stdin.take() {
        Some(mut to) => to.write_all(input),
        None => Err(Error::from(ErrorKind::BrokenPipe)),
    };
    match child.wait()?.code() {
        Some(0) if given.is_err() => Ok(None),
        status => Ok(status),
    }
}

// Why the helper could not be run.
fn helper_fault(error: Error) -> FileError {
    match FileError::from(error) {
        FileError::System(error) => FileError::Helper(error),
        other => other,
    }
}

// A refusal where no helper is installed.
fn without_helper(refusal: FileError) -> FileError {
    match refusal {
        FileError::System(error) => FileError::NoHelper(error),
        other => other,
    }
}

// What the helper's status comes to: it was done, a lock stands or nothing is staged, the words or the mailbox aren't
// this user's, what stands there isn't his or not under his lock, or memory was short.
fn answer_of(status: Option<i32>, refusal: FileError) -> Result<bool, FileError> {
    match status {
        Some(0) => Ok(true),
        Some(1) => Ok(false),
        Some(2 | 7) => Err(refusal),
        Some(6) => Err(FileError::HelperRefused),
        Some(8) => Err(FileError::Memory),
        _ => Err(FileError::HelperFailed),
    }
}

impl<'a> Helper<'a> {
    pub fn new(alloc: Global, rights: &'a Rights) -> Helper<'a> {
        Helper { alloc, rights }
    }

    /// Has the helper do what the system refused: true if it was done, and false if a lock stands or nothing is staged.
    /// The refusal stands if it is of another kind, if the file isn't in the folder of mailboxes or isn't the user's
    /// mailbox, and if there is no helper.
    pub fn ask<R: Files + Processes>(
        &self,
        rt: &R,
        errand: &Errand<'_>,
        refusal: FileError,
    ) -> Result<bool, FileError> {
        if !refusal.is_denial() || !is_one_file(rt, folder_of(errand.file), FOLDER) {
            return Err(refusal);
        }
        let Some(path) = helper_path(rt, self.alloc)? else {
            return Err(without_helper(refusal));
        };
        let Some(right) = self.rights.share()? else {
            return Err(refusal);
        };
        let mut command = command_of(self.alloc, path.as_str(), errand, right)?;
        match run_helper(rt, &mut command, errand.input) {
            Ok(status) => answer_of(status, refusal),
            Err(error) => Err(helper_fault(error)),
        }
    }

    /// Has the helper take away what was staged. It does so under the lock alone, so one that was broken is put again
    /// before. It is taken away as the run's other locks are.
    pub fn have_discarded<R: Files + Processes>(
        &self,
        rt: &R,
        file: &str,
        digits: &str,
        refusal: FileError,
    ) -> Result<(), FileError> {
        let discard = Errand::of(Operation::Discard, file, digits);
        match self.have_done(rt, &discard, refusal) {
            Err(FileError::HelperRefused) => {}
            answer => return answer,
        }
        let lock = Errand::of(Operation::Lock, file, digits);
        self.have_done(rt, &lock, FileError::from(denial()))?;
        self.have_done(rt, &discard, FileError::from(denial()))
    }

    /// Has the helper do what is either done or fails.
    pub fn have_done<R: Files + Processes>(
        &self,
        rt: &R,
        errand: &Errand<'_>,
        refusal: FileError,
    ) -> Result<(), FileError> {
        if self.ask(rt, errand, refusal)? {
            Ok(())
        } else {
            Err(FileError::HelperFailed)
        }
    }
}
