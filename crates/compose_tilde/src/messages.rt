// The messages that a draft takes.
ghost use Rattle.std.specs.Prelude.{◌≡◌, ◌≤◌, ◌<◌, ◌-◌, ◌++◌, [], All, IfOk, OnOk, IfErr, length, map};
ghost use Rattle.std.specs.List.{flat_map};
ghost use Rattle.mail_text.specs.Lines.{with_feed};
ghost use Rattle.message_show.specs.ShownText.{shown_text};
ghost use Rattle.message_state.specs.ShownRows.{IsShown};
ghost use Rattle.message_list.specs.declared.list.Purpose.TheVariants.{Live};
ghost use Rattle.message_list.specs.Choosing.{chosen, IsChosen, IsMessage};
ghost use Rattle.compose_tilde.specs.Views.{view_of, IsView, message_text, texts};
ghost use Rattle.compose_tilde.specs.Quoting.{forwarded, indent, indented, quoted, all_forwarded, all_quoted};

use crate::need::ComposeError;
use crate::view::ComposeView;
use mail_text::{Items, Memory, Text, lines};
use mailx_vars::Vars;
use mbox_scan::Folder;
use message_list::{ListError, Purpose};
use message_show::{How, shown_text};
use message_state::Shown;
use std::alloc::Global;

// The messages that the words of a list select; no folder counts as an empty one.
pub(crate) fn chosen(
    alloc: Global,
    words: &[Text],
    view: &ComposeView<'_>,
) -> Result<Items<u32>, ListError>
    requires { IsView (view_of view.now) }
    ensures chosen { IsChosen result (chosen Live view.now.shown.now (texts (view_of view.now).folder) words.now) }
    ensures messages { IfOk result (λ ns. All (IsMessage view.now.shown.now) ns) }
{
    match view.folder {
        Some(folder) => message_list::chosen(alloc, words, view.shown, folder, Purpose::Live),
        None => chosen_of_none(alloc, words, view.shown),
    }
}

// The same without a folder.
fn chosen_of_none(alloc: Global, words: &[Text], shown: &Shown) -> Result<Items<u32>, ListError>
    requires { IsShown shown.now }
    ensures chosen { IsChosen result (chosen Live shown.now [] words.now) }
    ensures messages { IfOk result (λ ns. All (IsMessage shown.now) ns) }
{
    match Folder::open(alloc, Text::new(alloc)) {
        Ok(none) => message_list::chosen(alloc, words, shown, &none, Purpose::Live),
        Err(_) => Err(ListError::Memory),
    }
}

// Puts a message as it is printed, without the line of its number.
fn put_forwarded(
    alloc: Global,
    out: &mut Text,
    view: &ComposeView<'_>,
    how: How,
    n: u32,
) -> Result<(), Memory>
    requires valid { IsView (view_of view.now) }
    requires message { IsMessage view.now.shown.now n }
    ensures { OnOk result (out.new ≡ out.old ++ forwarded (view_of view.now) how n) }
{
    match view.folder {
        Some(folder) => {
            let shown = shown_text(alloc, &folder.message(n as usize - 1), view.sets, how)?;
            out.push(shown.bytes())?;
            out.push(b"\n")
        }
        None => unreachable!(),
    }
}

// What stands in front of the lines of a message that is quoted.
fn indent(vars: &Vars) -> &[u8]
    ensures { result.now ≡ indent vars.now }
{
    match vars.get(b"indentprefix") {
        Some(value) => value,
        None => b"",
    }
}

// Puts a text with this in front of each line.
fn put_indented(out: &mut Text, front: &[u8], text: &[u8]) -> Result<(), Memory>
    ensures { OnOk result (out.new ≡ out.old ++ indented front.now text.now) }
{
    for line in lines(text) {
        out.push(front)?;
        out.push(line)?;
        out.push(b"\n")?;
    }
    Ok(())
}

// Puts a message whose lines are quoted.
fn put_quoted(
    alloc: Global,
    out: &mut Text,
    view: &ComposeView<'_>,
    how: How,
    n: u32,
) -> Result<(), Memory>
    requires valid { IsView (view_of view.now) }
    requires message { IsMessage view.now.shown.now n }
    ensures { OnOk result (out.new ≡ out.old ++ quoted (view_of view.now) how n) }
{
    let mut shown = Text::new(alloc);
    put_forwarded(alloc, &mut shown, view, how, n)?;
    put_indented(out, indent(view.vars), shown.bytes())
}

// Messages as they are printed, one after the other.
pub(crate) fn all_forwarded(
    alloc: Global,
    view: &ComposeView<'_>,
    how: How,
    numbers: &[u32],
) -> Result<Text, Memory>
    requires valid { IsView (view_of view.now) }
    requires messages { All (IsMessage view.now.shown.now) numbers.now }
    ensures { IfOk result (λ t. t ≡ all_forwarded (view_of view.now) how numbers.now) }
{
    let mut out = Text::new(alloc);
    for n in numbers {
        put_forwarded(alloc, &mut out, view, how, *n)?;
    }
    Ok(out)
}

// Messages whose lines are quoted, one after the other.
pub(crate) fn all_quoted(
    alloc: Global,
    view: &ComposeView<'_>,
    how: How,
    numbers: &[u32],
) -> Result<Text, Memory>
    requires valid { IsView (view_of view.now) }
    requires messages { All (IsMessage view.now.shown.now) numbers.now }
    ensures { IfOk result (λ t. t ≡ all_quoted (view_of view.now) how numbers.now) }
{
    let mut out = Text::new(alloc);
    for n in numbers {
        put_quoted(alloc, &mut out, view, how, *n)?;
    }
    Ok(out)
}
