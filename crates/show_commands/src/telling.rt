// Commands that tell of messages, of the desk and of the commands.
ghost use Rattle.std.specs.Prelude.{◌≡◌, ◌++◌, ◌∷◌, All, IfOk, OnOk};
ghost use Rattle.std.specs.List.{flat_map, join_with_byte};
ghost use Rattle.mail_text.specs.Lines.{with_feed};
ghost use Rattle.line_words.specs.Spellings.{names};
ghost use Rattle.command_desk.specs.Answers.{Means};
ghost use Rattle.command_desk.specs.Desks.{IsDesk, IsMessageOf, IsWithin};
ghost use Rattle.show_commands.specs.Telling.{from, size_line, size, number, echo, help};

use command_desk::{Desk, Refusal, Steps, chosen, message, says, unchanged};
use itoa::Buffer;
use line_words::command_name;
use mail_text::{Memory, Text};
use message_list::Purpose;
use message_show::summary_lines;
use std::alloc::Global;

/// `from`.
pub fn from(alloc: Global, desk: &Desk, words: &[Text]) -> Result<Steps, Refusal>
    requires { IsDesk desk.now }
    ensures means { Means result (from desk.now words.now) }
    ensures within { IsWithin desk.now result }
{
    let numbers = chosen(alloc, words, desk, Purpose::Any)?;
    let out = summary_lines(alloc, &desk.shown, numbers.items(), desk.places.width)?;
    says(alloc, out, unchanged(alloc))
}

// Puts a message's number and size.
fn put_size(out: &mut Text, desk: &Desk, n: u32) -> Result<(), Memory>
    requires desk { IsDesk desk.now }
    requires message { IsMessageOf desk.now.shown n }
    ensures { OnOk result (out.new ≡ out.old ++ size_line desk.now n) }
{
    let mut buffer = Buffer::new();
    let size = message(desk, n).text().len() as u64 + 1;
    out.push(buffer.format(n).as_bytes())?;
    out.push(b": ")?;
    out.push(buffer.format(size).as_bytes())?;
    out.push(b"\n")
}

fn sizes(alloc: Global, desk: &Desk, numbers: &[u32]) -> Result<Text, Memory>
    requires desk { IsDesk desk.now }
    requires messages { All (IsMessageOf desk.now.shown) numbers.now }
    ensures { IfOk result (λ t. t ≡ flat_map (size_line desk.now) numbers.now) }
{
    let mut out = Text::new(alloc);
    for n in numbers {
        put_size(&mut out, desk, *n)?;
    }
    Ok(out)
}

/// `size`.
pub fn size(alloc: Global, desk: &Desk, words: &[Text]) -> Result<Steps, Refusal>
    requires { IsDesk desk.now }
    ensures means { Means result (size desk.now words.now) }
    ensures within { IsWithin desk.now result }
{
    let numbers = chosen(alloc, words, desk, Purpose::Any)?;
    let out = sizes(alloc, desk, numbers.items())?;
    says(alloc, out, unchanged(alloc))
}

/// `=`.
pub fn number(alloc: Global, desk: &Desk) -> Result<Steps, Refusal>
    requires { IsDesk desk.now }
    ensures means { Means result (number desk.now) }
    ensures within { IsWithin desk.now result }
{
    let mut buffer = Buffer::new();
    let mut out = Text::copy(alloc, buffer.format(desk.shown.current).as_bytes())?;
    out.push(b"\n")?;
    says(alloc, out, unchanged(alloc))
}

// Puts words, each after a space.
fn put_rest(out: &mut Text, words: &[Text]) -> Result<(), Memory>
    ensures { OnOk result (out.new ≡ out.old ++ flat_map (λ word. 32 ∷ word) words.now) }
{
    for word in words {
        out.push(b" ")?;
        out.push(word.bytes())?;
    }
    Ok(())
}

// A word and others, joined by one space, as a line.
fn joined_behind(alloc: Global, first: &Text, rest: &[Text]) -> Result<Text, Memory>
    ensures { IfOk result (λ t. t ≡ with_feed (join_with_byte 32 (first.now ∷ rest.now))) }
{
    let mut out = Text::copy(alloc, first.bytes())?;
    put_rest(&mut out, rest)?;
    out.push(b"\n")?;
    Ok(out)
}

// Words joined by one space, as a line.
fn joined(alloc: Global, words: &[Text]) -> Result<Text, Memory>
    ensures { IfOk result (λ t. t ≡ with_feed (join_with_byte 32 words.now)) }
{
    match words.split_first() {
        Some((first, rest)) => joined_behind(alloc, first, rest),
        None => Text::copy(alloc, b"\n"),
    }
}

/// `echo`.
pub fn echo(alloc: Global, desk: &Desk, words: &[Text]) -> Result<Steps, Refusal>
    requires { IsDesk desk.now }
    ensures means { Means result (echo desk.now words.now) }
    ensures within { IsWithin desk.now result }
{
    let out = joined(alloc, words)?;
    says(alloc, out, unchanged(alloc))
}

// The names of all commands, one a line.
fn names(alloc: Global) -> Result<Text, Memory>
    ensures { IfOk result (λ t. t ≡ flat_map with_feed names) }
{
    let mut out = Text::new(alloc);
    let mut k = 0;
    while let Some(name) = command_name(k) {
        out.push(name)?;
        out.push(b"\n")?;
        k += 1;
    }
    Ok(out)
}

/// `help`.
pub fn help(alloc: Global, desk: &Desk) -> Result<Steps, Refusal>
    requires { IsDesk desk.now }
    ensures means { Means result (help desk.now) }
    ensures within { IsWithin desk.now result }
{
    let out = names(alloc)?;
    says(alloc, out, unchanged(alloc))
}
