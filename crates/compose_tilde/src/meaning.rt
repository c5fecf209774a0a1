// What each escape comes to.
ghost use Rattle.std.specs.Prelude.{◌≡◌, ◌++◌, Some, None, Ok, Err, IfOk, OnErr, codes};
ghost use Rattle.draft_text.specs.Texts.{joined};
ghost use Rattle.message_list.specs.declared.list.Purpose.TheVariants.{Live};
ghost use Rattle.message_list.specs.Choosing.{chosen};
ghost use Rattle.compose_tilde.specs.Views.{view_of, texts, IsView};
ghost use Rattle.compose_tilde.specs.Values.{with_more, with_subject, appended, printed};
ghost use Rattle.compose_tilde.specs.Quoting.{all_forwarded, all_quoted};
ghost use Rattle.compose_tilde.specs.Escapes.{letter_lines};
ghost use Rattle.compose_tilde.specs.Steps.{Means, goes_on, says, asks};
ghost use Rattle.compose_tilde.specs.Meanings.{sign, command, ask_for, source, take_messages, meaning, IsListError};

use crate::escape::Escape;
use crate::machine::{Machine, Names, Part, Wait};
use crate::messages::{all_forwarded, all_quoted, chosen};
use crate::need::{ComposeError, Need};
use crate::reading::Given;
use crate::saying::{letter_lines, printed, prompt};
use crate::values::{add_names, append, append_line, set_subject};
use crate::view::ComposeView;
use mail_text::{Memory, Text};
use mailx_vars::Vars;
use message_list::ListError;
use message_show::How;
use rc_conditionals::Mode;
use std::alloc::Global;

// The machine waits for an answer to what is needed.
fn asks(machine: &mut Machine, wait: Wait, need: Need) -> Result<Need, ComposeError>
    ensures means { Means result machine.new (asks machine.old wait need) }
    ensures stays { OnErr result (machine.new ≡ machine.old) }
{
    machine.waits = Some(wait);
    Ok(need)
}

// A command is run.
fn run(machine: &mut Machine, wait: Wait, command: Text, input: Text) -> Result<Need, ComposeError>
    ensures means { Means result machine.new (asks machine.old wait (Need.Child command input)) }
    ensures stays { OnErr result (machine.new ≡ machine.old) }
{
    asks(machine, wait, Need::Child { command, input })
}

// A command is run whose input is the body.
fn pipe(alloc: Global, machine: &mut Machine, command: Text) -> Result<Need, ComposeError>
    ensures means { Means result machine.new
        (asks machine.old Wait.Filtered (Need.Child command machine.old.draft.body)) }
    ensures stays { OnErr result (machine.new ≡ machine.old) }
{
    let input = Text::copy(alloc, machine.draft.body.bytes())?;
    run(machine, Wait::Filtered, command, input)
}

// The body is edited by a command.
fn edit(alloc: Global, machine: &mut Machine, command: &[u8]) -> Result<Need, ComposeError>
    ensures means { Means result machine.new
        (asks machine.old Wait.Edited (Need.Edit command.now machine.old.draft.body)) }
    ensures stays { OnErr result (machine.new ≡ machine.old) }
{
    let command = Text::copy(alloc, command)?;
    let text = Text::copy(alloc, machine.draft.body.bytes())?;
    asks(machine, Wait::Edited, Need::Edit { command, text })
}

// The body is put at the end of a file.
fn write(alloc: Global, machine: &mut Machine, name: Text) -> Result<Need, ComposeError>
    ensures means { Means result machine.new
        (asks machine.old Wait.Carried (Need.Put name machine.old.draft.body)) }
    ensures stays { OnErr result (machine.new ≡ machine.old) }
{
    let bytes = Text::copy(alloc, machine.draft.body.bytes())?;
    asks(machine, Wait::Carried, Need::Put { name, bytes })
}

// A command of a session, which send mode hasn't got.
fn command(machine: &mut Machine, mode: Mode, line: Text) -> Result<Need, ComposeError>
    ensures means { Means result machine.new (command machine.old mode line) }
    ensures stays { OnErr result (machine.new ≡ machine.old) }
{
    match mode {
        Mode::Send => Err(ComposeError::NotSending),
        Mode::Receive => asks(machine, Wait::Carried, Need::Command(line)),
    }
}

// The letters of all escapes are printed.
fn letters(alloc: Global, machine: &mut Machine) -> Result<Need, ComposeError>
    ensures means { Means result machine.new (says machine.old letter_lines) }
    ensures stays { OnErr result (machine.new ≡ machine.old) }
{
    let out = letter_lines(alloc)?;
    Ok(Need::Say(out))
}

// The draft is printed.
fn print(alloc: Global, machine: &mut Machine) -> Result<Need, ComposeError>
    ensures means { Means result machine.new (says machine.old (printed machine.old.draft)) }
    ensures stays { OnErr result (machine.new ≡ machine.old) }
{
    let out = printed(alloc, &machine.draft)?;
    Ok(Need::Say(out))
}

// The body takes the value of a variable.
fn sign(
    alloc: Global,
    machine: &mut Machine,
    vars: &Vars,
    name: &[u8],
) -> Result<Need, ComposeError>
    ensures means { Means result machine.new (sign machine.old vars.now name.now) }
    ensures stays { OnErr result (machine.new ≡ machine.old) }
{
    match vars.get(name) {
        Some(value) => append_line(alloc, &mut machine.draft, value)?,
        None => {}
    }
    Ok(Need::More)
}

// Names are added.
fn add(
    alloc: Global,
    machine: &mut Machine,
    names: Names,
    words: &[Text],
) -> Result<Need, ComposeError>
    ensures means { Means result machine.new
        (goes_on machine.old (with_more machine.old.draft names words.now)) }
    ensures stays { OnErr result (machine.new ≡ machine.old) }
{
    add_names(alloc, &mut machine.draft, names, words)?;
    Ok(Need::More)
}

// The subject is set.
pub(crate) fn subject(
    alloc: Global,
    machine: &mut Machine,
    bytes: &[u8],
) -> Result<Need, ComposeError>
    ensures means { Means result machine.new (goes_on machine.old (with_subject machine.old.draft bytes.now)) }
    ensures stays { OnErr result (machine.new ≡ machine.old) }
{
    set_subject(alloc, &mut machine.draft, bytes)?;
    Ok(Need::More)
}

// The body takes these bytes.
pub(crate) fn take(alloc: Global, machine: &mut Machine, bytes: &[u8]) -> Result<Need, ComposeError>
    ensures means { Means result machine.new (goes_on machine.old (appended machine.old.draft bytes.now)) }
    ensures stays { OnErr result (machine.new ≡ machine.old) }
{
    append(alloc, &mut machine.draft, bytes)?;
    Ok(Need::More)
}

// The first value is asked for.
fn header(alloc: Global, machine: &mut Machine) -> Result<Need, ComposeError>
    ensures means { Means result machine.new (ask_for machine.old (Some (Part.Names Names.To))) }
    ensures stays { OnErr result (machine.new ≡ machine.old) }
{
    let first = Some(Part::Names(Names::To));
    let need = prompt(alloc, first)?;
    machine.header = first;
    Ok(need)
}

// A file, or a command after `!`.
fn source(alloc: Global, machine: &mut Machine, whole: Text) -> Result<Need, ComposeError>
    ensures means { Means result machine.new (source machine.old whole) }
    ensures stays { OnErr result (machine.new ≡ machine.old) }
{
    match whole.bytes() {
        [b'!', command @ ..] => {
            let command = Text::copy(alloc, command)?;
            run(machine, Wait::Taken, command, Text::new(alloc))
        }
        _ => asks(machine, Wait::File, Need::Load(whole)),
    }
}

// The error of words that select no messages.
fn list_error(error: ListError) -> ComposeError
    ensures { IsListError error result }
{
    match error {
        ListError::Memory => ComposeError::Memory,
        error => ComposeError::List(error),
    }
}

// The body takes messages as they are printed.
fn forward(
    alloc: Global,
    machine: &mut Machine,
    words: &[Text],
    how: How,
    view: &ComposeView<'_>,
) -> Result<Need, ComposeError>
    requires { IsView (view_of view.now) }
    ensures means { let seen = view_of view.now in Means result machine.new
        (take_messages machine.old (all_forwarded seen how) (chosen Live seen.shown (texts seen.folder) words.now)) }
    ensures stays { OnErr result (machine.new ≡ machine.old) }
{
    match chosen(alloc, words, view) {
        Ok(numbers) => {
            let text = all_forwarded(alloc, view, how, numbers.items())?;
            take(alloc, machine, text.bytes())
        }
        Err(error) => Err(list_error(error)),
    }
}

// The body takes messages as they are printed, each line after the value of `indentprefix`.
fn quote(
    alloc: Global,
    machine: &mut Machine,
    words: &[Text],
    how: How,
    view: &ComposeView<'_>,
) -> Result<Need, ComposeError>
    requires { IsView (view_of view.now) }
    ensures means { let seen = view_of view.now in Means result machine.new
        (take_messages machine.old (all_quoted seen how) (chosen Live seen.shown (texts seen.folder) words.now)) }
    ensures stays { OnErr result (machine.new ≡ machine.old) }
{
    match chosen(alloc, words, view) {
        Ok(numbers) => {
            let text = all_quoted(alloc, view, how, numbers.items())?;
            take(alloc, machine, text.bytes())
        }
        Err(error) => Err(list_error(error)),
    }
}

// What an escape comes to, given its argument.
pub(crate) fn meaning(
    alloc: Global,
    escape: Escape,
    machine: &mut Machine,
    given: Given,
    view: &ComposeView<'_>,
) -> Result<Need, ComposeError>
    requires { IsView (view_of view.now) }
    ensures means { Means result machine.new (meaning escape machine.old given (view_of view.now)) }
    ensures stays { OnErr result (machine.new ≡ machine.old) }
{
    let Given { whole, words } = given;
    match escape {
        Escape::End => Ok(Need::Done),
        Escape::Shell => run(machine, Wait::Said, whole, Text::new(alloc)),
        Escape::Command => command(machine, view.mode, whole),
        Escape::Letters => letters(alloc, machine),
        Escape::Sign => sign(alloc, machine, view.vars, b"sign"),
        Escape::LongSign => sign(alloc, machine, view.vars, b"Sign"),
        Escape::Value => sign(alloc, machine, view.vars, whole.bytes()),
        Escape::Add(names) => add(alloc, machine, names, words.items()),
        Escape::Subject => subject(alloc, machine, whole.bytes()),
        Escape::Header => header(alloc, machine),
        Escape::Dead => asks(machine, Wait::File, Need::Dead),
        Escape::Edit => edit(alloc, machine, view.places.editor.bytes()),
        Escape::Visual => edit(alloc, machine, view.places.visual.bytes()),
        Escape::Read => source(alloc, machine, whole),
        Escape::Forward(how) => forward(alloc, machine, words.items(), how, view),
        Escape::Quote(how) => quote(alloc, machine, words.items(), how, view),
        Escape::Print => print(alloc, machine),
        Escape::Quit => Ok(Need::Quit),
        Escape::Exit => Ok(Need::Drop),
        Escape::Write => write(alloc, machine, whole),
        Escape::Pipe => pipe(alloc, machine, whole),
    }
}
