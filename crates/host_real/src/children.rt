// Programs that are run: each is handed an input, and what it writes is kept.
ghost use Rattle.std.specs.Prelude.{◌≤◌, length, IfOk};
ghost use Rattle.host_port.specs.Calls.{output_limit};

use crate::files::create_private;
use crate::kinds::is_closed_folder;
use crate::paths::{last_part, path_of};
use crate::reasons::FileError;
use host_port::ChildAnswer;
use mail_text::Text;
use std::alloc::Global;
use std::fs::{File, Files};
use std::io;
use std::io::{Error, Read, Seek, SeekFrom, Write};
use std::process::{Command, Processes, Stdio};

/// The most bytes of a child's output, and of an editor's text, that are kept.
pub const OUTPUT_LIMIT: usize = 16_777_216;

/// What the shell carries out. It has the program and the arguments as its words, and reads none of them: the program
/// takes its place. A shell whose `exec` has options is told that a name which begins with `-` is none.
const SCRIPT: &str =
    "case $1 in -*) (exec -- true) 2>/dev/null && exec -- \"$@\";; esac; exec \"$@\"";

// The command that runs a program, over the open file that its input stands in.
fn command_of(
    alloc: Global,
    input: File,
    program: &[u8],
    args: &[Text],
) -> Result<Command, FileError> {
    let mut command = Command::new(alloc, "/bin/sh")?;
    command.arg("-c")?;
    command.arg(SCRIPT)?;
    command.arg("sh")?;
    command.arg(path_of(program)?)?;
    for arg in args {
        command.arg(path_of(arg.bytes())?)?;
    }
    command.stdin(input);
    command.stdout(Stdio::piped());
    Ok(command)
}

// Writes an input into a private file, whose name is gone again before anything is in it. It needn't last.
fn write_scratch<R: Files<File = File>>(rt: &R, path: &str, input: &[u8]) -> Result<File, Error> {
    let mut file = create_private(rt, path)?;
    rt.remove_file(path)?;
    file.write_all(input)?;
    file.seek(SeekFrom::Start(0))?;
    Ok(file)
}

// Whether an error says that another folder may have room for the file.
fn asks_for_room(error: &Error) -> bool {
    let kind = error.kind();
    is_closed_folder(error)
        || kind == io::ErrorKind::StorageFull
        || kind == io::ErrorKind::QuotaExceeded
}

// Why a program gets no input.
fn input_fault(error: Error) -> FileError {
    match FileError::from(error) {
        FileError::System(error) => FileError::Input(error),
        other => other,
    }
}

// The open file of an input. If the folder of the scratch file has no room for it, or lets none be made, it is made
// in that of the system's scratch files.
fn open_input<R: Files<File = File>>(
    rt: &R,
    alloc: Global,
    scratch: &str,
    input: &[u8],
) -> Result<File, FileError> {
    match write_scratch(rt, scratch, input) {
        Ok(file) => Ok(file),
        Err(error) if asks_for_room(&error) => {
            let last = last_part(scratch);
            let other = format!(in alloc; "/tmp/{last}")?;
            write_scratch(rt, other.as_str(), input).map_err(input_fault)
        }
        Err(error) => Err(input_fault(error)),
    }
}

/// The front of what is read, to one byte past the limit.
pub fn read_front<F: Read>(alloc: Global, from: &mut F) -> Result<Vec<u8>, FileError> {
    let mut bytes = Vec::new(alloc);
    from.take(OUTPUT_LIMIT as u64 + 1).read_to_end(&mut bytes)?;
    Ok(bytes)
}

// What is read, as far as it is kept, and whether there is more. It is read to its end, so that whoever writes it can
// go on.
fn read_output<F: Read + Drop>(alloc: Global, mut from: F) -> Result<(Text, bool), FileError>
    ensures { IfOk result (λ r. length r.0 ≤ output_limit) }
{
    let mut bytes = read_front(alloc, &mut from)?;
    let cut = OUTPUT_LIMIT < bytes.len();
    if cut {
        bytes.truncate(OUTPUT_LIMIT);
        io::copy(&mut from, &mut io::sink())?;
    }
    Ok((Text::of(bytes), cut))
}

// Runs a command to its end.
fn run_command<P: Processes>(
    processes: &P,
    alloc: Global,
    command: &mut Command,
) -> Result<ChildAnswer, FileError>
    ensures { IfOk result (λ a. length a.output ≤ output_limit) }
{
    let mut child = command.spawn(processes)?;
    let output = match child.stdout.take() {
        Some(output) => read_output(alloc, output),
        None => Err(FileError::from(Error::from(io::ErrorKind::BrokenPipe))),
    };
    let ended = child.wait();
    let (output, cut) = output?;
    Ok(ChildAnswer {
        status: ended?.code().unwrap_or(-1),
        output,
        cut,
    })
}

/// Runs a program to its end, with this input. The input is put into the file `scratch`, which is gone before the
/// program runs.
pub fn run<R: Files<File = File> + Processes>(
    rt: &R,
    alloc: Global,
    scratch: &[u8],
    program: &[u8],
    args: &[Text],
    input: &[u8],
) -> Result<ChildAnswer, FileError>
    ensures { IfOk result (λ a. length a.output ≤ output_limit) }
{
    let input = open_input(rt, alloc, path_of(scratch)?, input)?;
    let mut command = command_of(alloc, input, program, args)?;
    run_command(rt, alloc, &mut command)
}
