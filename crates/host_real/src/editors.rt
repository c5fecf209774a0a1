// Editors that are run: each is handed a text as a file, which is read back.
ghost use Rattle.std.specs.Prelude.{◌≤◌, length, IfOk};
ghost use Rattle.host_port.specs.Calls.{output_limit};

use crate::children::{OUTPUT_LIMIT, read_front};
use crate::files::PRIVATE;
use crate::kinds::look;
use crate::paths::{last_part, path_of};
use crate::reasons::FileError;
use host_port::EditAnswer;
use mail_text::Text;
use std::alloc::Global;
use std::fs::{File, Files, OpenOptions};
use std::io::{Error, Write};
use std::os::unix::fs::OpenOptionsExt;
use std::process::{Command, Processes};

/// What runs the shell of an editor. Its first word is the name of the file if a variable is to tell it, and else empty.
/// On a terminal the editor has a group of processes of its own, so that an interrupt ends neither this program nor what
/// runs the editor. If it is stopped there, so is all of the program, until that goes on: statuses from 147 to 150 are
/// those of a job that was stopped. An editor that failed may have left the terminal as it needs it.
const SCRIPT: &str = "if [ -n \"$1\" ]; then
    MAILX_TEXT=$1
    export MAILX_TEXT
fi
shift
[ -t 0 ] || exec \"$@\"
trap : INT QUIT
case $1 in
*/sh | */dash) set -- \"$1\" -c \"trap : INT QUIT; $3\" \"$4\" ;;
esac
modes=$(stty -g 2>/dev/null)
set -m
\"$@\"
status=$?
while [ $status -ge 147 ] && [ $status -le 150 ] && jobs %% >/dev/null 2>&1; do
    set +m
    kill -s TSTP 0
    set -m
    fg %% >/dev/null
    status=$?
done
set +m
[ $status -eq 0 ] || stty \"$modes\" 2>/dev/null
exit $status";

// Whether a shell has no word `$0` for what follows its command, as `csh`, `tcsh` and `fish`.
fn has_no_zero(shell: &str) -> bool {
    let name = last_part(shell);
    name.ends_with("csh") || name == "fish"
}

// The command by which a shell runs an editor: the name of the file is a word of its own, which the shell doesn't read,
// or the value of a variable. Its input and output are the program's own.
fn command_of(
    alloc: Global,
    shell: &[u8],
    command: &[u8],
    path: &str,
) -> Result<Command, FileError> {
    let mut run = Command::new(alloc, "/bin/sh")?;
    let shell = path_of(shell)?;
    let command = path_of(command)?;
    let (variable, word, last) = if has_no_zero(shell) {
        (path, "$MAILX_TEXT", None)
    } else {
        ("", "$0", Some(path))
    };
    let edit = format!(in alloc; "{command} \"{word}\"")?;
    for word in ["-c", SCRIPT, "sh", variable, shell, "-c", edit.as_str()] {
        run.arg(word)?;
    }
    if let Some(last) = last {
        run.arg(last)?;
    }
    Ok(run)
}

// Puts a text into a private file that isn't there yet. If it can't be written, it is taken away again.
fn put_text<R: Files>(rt: &R, path: &str, text: &[u8]) -> Result<(), Error> {
    let mut file = OpenOptions::new()
        .write(true)
        .create_new(true)
        .mode(PRIVATE)
        .open(rt, path)?;
    let written = file.write_all(text);
    if written.is_err() {
        let _ = rt.remove_file(path);
    }
    written
}

// The text in a file, as far as it is kept, and whether there is more. An editor may have put another file there.
fn take_text<R: Files<File = File>>(
    rt: &R,
    alloc: Global,
    path: &str,
) -> Result<(Text, bool), FileError>
    ensures { IfOk result (λ r. length r.0 ≤ output_limit) }
{
    match look(rt, path)? {
        Some(found) if !found.is_file() => return Err(FileError::NotRegular),
        _ => {}
    }
    let mut file = File::open(rt, path)?;
    let mut bytes = read_front(alloc, &mut file)?;
    let cut = OUTPUT_LIMIT < bytes.len();
    if cut {
        bytes.truncate(OUTPUT_LIMIT);
    }
    Ok((Text::of(bytes), cut))
}

// Runs an editor on a file to its end, and reads the file.
fn edit_file<R: Files<File = File> + Processes>(
    rt: &R,
    alloc: Global,
    path: &str,
    shell: &[u8],
    command: &[u8],
) -> Result<EditAnswer, FileError>
    ensures { IfOk result (λ a. length a.text ≤ output_limit) }
{
    let mut run = command_of(alloc, shell, command, path)?;
    let ended = run.status(rt)?;
    let (text, cut) = take_text(rt, alloc, path)?;
    Ok(EditAnswer {
        status: ended.code().unwrap_or(-1),
        text,
        cut,
    })
}

/// Runs an editor on a text to its end. The text is put into a private file of this name, which is made anew, and
/// taken away at the end. If a file stands there, or none can be read afterwards, it fails.
pub fn edit<R: Files<File = File> + Processes>(
    rt: &R,
    alloc: Global,
    name: &[u8],
    shell: &[u8],
    command: &[u8],
    text: &[u8],
) -> Result<EditAnswer, FileError>
    ensures { IfOk result (λ a. length a.text ≤ output_limit) }
{
    let path = path_of(name)?;
    put_text(rt, path, text)?;
    let answer = edit_file(rt, alloc, path, shell, command);
    let _ = rt.remove_file(path);
    answer
}
