ghost use Rattle.std.specs.Prelude.{◌≡◌, ◌==◌};
ghost use Rattle.std.specs.List.{find};
ghost use Rattle.std.specs.Option.{option_copied};
ghost use Rattle.compose_tilde.specs.Escapes.{escapes, escape_of, takes};

use crate::machine::Names;
use message_show::How;

/// What the letter of an escape stands for.
#[derive(Clone, Copy, Debug, PartialEq, Eq)]
pub enum Escape {
    /// `.`: the draft ends.
    End,
    /// `!`: a command is run, and its output is printed.
    Shell,
    /// `:` and `_`: a command of the session is carried out.
    Command,
    /// `?`: the letters of all escapes are printed.
    Letters,
    /// `a`: the body takes the value of the variable `sign`.
    Sign,
    /// `A`: the body takes the value of the variable `Sign`.
    LongSign,
    /// `i`: the body takes the value of a variable.
    Value,
    /// `b`, `c`, `t`: names are added.
    Add(Names),
    /// `s`: the subject is set.
    Subject,
    /// `h`: names and subject are asked for.
    Header,
    /// `d`: the body takes the dead letter.
    Dead,
    /// `r` and `<`: the body takes a file, or a command's output.
    Read,
    /// `e`: the body is edited.
    Edit,
    /// `v`: the body is edited by the visual editor.
    Visual,
    /// `f` and `F`: the body takes messages as they are printed.
    Forward(How),
    /// `m` and `M`: the body takes messages as they are printed, each line after the value of `indentprefix`.
    Quote(How),
    /// `p`: the draft is printed.
    Print,
    /// `q`: the draft is dropped, and saved first.
    Quit,
    /// `x`: the draft is dropped.
    Exit,
    /// `w`: the body is put at the end of a file.
    Write,
    /// `|`: the body becomes a command's output, whose input it is.
    Pipe,
}

/// What may stand after the letter of an escape.
#[derive(Clone, Copy, Debug, PartialEq, Eq)]
pub enum Behind {
    /// Nothing.
    Nothing,
    /// Any text, also none.
    Anything,
    /// A text that isn't empty.
    Argument,
    /// A file, or `!` and a command.
    Source,
    /// A word or more.
    Words,
    /// Words, also none.
    List,
}

/// A row of the table of escapes.
#[derive(Drop)]
pub struct Row {
    /// The letter.
    pub letter: u8,
    /// What it stands for.
    pub escape: Escape,
}

// The escapes, in the order of their letters.
#[rattlefmt::skip]
static ESCAPES: [Row; 27] = [
    Row { letter: b'!', escape: Escape::Shell },
    Row { letter: b'.', escape: Escape::End },
    Row { letter: b':', escape: Escape::Command },
    Row { letter: b'<', escape: Escape::Read },
    Row { letter: b'?', escape: Escape::Letters },
    Row { letter: b'A', escape: Escape::LongSign },
    Row { letter: b'F', escape: Escape::Forward(How::All) },
    Row { letter: b'M', escape: Escape::Quote(How::All) },
    Row { letter: b'_', escape: Escape::Command },
    Row { letter: b'a', escape: Escape::Sign },
    Row { letter: b'b', escape: Escape::Add(Names::Bcc) },
    Row { letter: b'c', escape: Escape::Add(Names::Cc) },
    Row { letter: b'd', escape: Escape::Dead },
    Row { letter: b'e', escape: Escape::Edit },
    Row { letter: b'f', escape: Escape::Forward(How::Kept) },
    Row { letter: b'h', escape: Escape::Header },
    Row { letter: b'i', escape: Escape::Value },
    Row { letter: b'm', escape: Escape::Quote(How::Kept) },
    Row { letter: b'p', escape: Escape::Print },
    Row { letter: b'q', escape: Escape::Quit },
    Row { letter: b'r', escape: Escape::Read },
    Row { letter: b's', escape: Escape::Subject },
    Row { letter: b't', escape: Escape::Add(Names::To) },
    Row { letter: b'v', escape: Escape::Visual },
    Row { letter: b'w', escape: Escape::Write },
    Row { letter: b'x', escape: Escape::Exit },
    Row { letter: b'|', escape: Escape::Pipe },
];

// The rows of the table.
pub(crate) fn rows() -> &'static [Row]
    ensures { result.now ≡ escapes }
{
    &ESCAPES
}

// The row of a letter, if it has one.
fn row_of(letter: u8) -> Option<&'static Row>
    ensures { option_copied result ≡ find (λ r. r.letter == letter) escapes }
{
    rows().iter().find(|r| r.letter == letter)
}

// The escape of a letter, if it stands for one.
pub(crate) fn escape_of(letter: u8) -> Option<Escape>
    ensures { result ≡ escape_of letter }
{
    match row_of(letter) {
        Some(row) => Some(row.escape),
        None => None,
    }
}

// What may stand after the letter of an escape.
pub(crate) fn takes(escape: Escape) -> Behind
    ensures { result ≡ takes escape }
{
    match escape {
        Escape::Shell | Escape::Command | Escape::Value | Escape::Write | Escape::Pipe => {
            Behind::Argument
        }
        Escape::Add(_) => Behind::Words,
        Escape::Subject => Behind::Anything,
        Escape::Read => Behind::Source,
        Escape::Forward(_) | Escape::Quote(_) => Behind::List,
        _ => Behind::Nothing,
    }
}
