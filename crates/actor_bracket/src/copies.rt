// Copies of changes, and their names.
ghost use Rattle.std.specs.Prelude.{◌≡◌, IfOk};
ghost use Rattle.core_steps.specs.Changes.{file_of};

use core_steps::CoreChange;
use mail_text::{Items, Memory, Text};
use std::alloc::Global;

/// The name of the file that a change is of.
pub(crate) fn change_file(change: &CoreChange) -> &[u8]
    ensures { result.now ≡ file_of change.now }
{
    match change {
        CoreChange::Rewrite { name, .. } => name.bytes(),
        CoreChange::Add { name, .. } => name.bytes(),
        CoreChange::Front { name, .. } => name.bytes(),
        CoreChange::AddRaw { name, .. } => name.bytes(),
    }
}

/// A copy of these texts.
pub(crate) fn copy_texts(alloc: Global, texts: &[Text]) -> Result<Items<Text>, Memory>
    ensures { IfOk result (λ ts. ts ≡ texts.now) }
{
    let mut copies = Items::new(alloc);
    for text in texts {
        let copy = Text::copy(alloc, text.bytes())?;
        copies.push(copy)?;
    }
    Ok(copies)
}

fn copy_change(alloc: Global, change: &CoreChange) -> Result<CoreChange, Memory>
    ensures { IfOk result (λ c. c ≡ change.now) }
{
    let name = Text::copy(alloc, change_file(change))?;
    match change {
        CoreChange::Rewrite {
            list,
            keep,
            base,
            ..
        } => {
            let list = copy_texts(alloc, list.items())?;
            let base = copy_texts(alloc, base.items())?;
            Ok(CoreChange::Rewrite {
                name,
                list,
                keep: *keep,
                base,
            })
        }
        CoreChange::Add { texts, .. } => {
            let texts = copy_texts(alloc, texts.items())?;
            Ok(CoreChange::Add { name, texts })
        }
        CoreChange::Front { texts, .. } => {
            let texts = copy_texts(alloc, texts.items())?;
            Ok(CoreChange::Front { name, texts })
        }
        CoreChange::AddRaw { bytes, .. } => {
            let bytes = Text::copy(alloc, bytes.bytes())?;
            Ok(CoreChange::AddRaw { name, bytes })
        }
    }
}

/// A copy of these changes.
pub fn copy_changes(alloc: Global, changes: &[CoreChange]) -> Result<Items<CoreChange>, Memory>
    ensures { IfOk result (λ cs. cs ≡ changes.now) }
{
    let mut copies = Items::new(alloc);
    for change in changes {
        let copy = copy_change(alloc, change)?;
        copies.push(copy)?;
    }
    Ok(copies)
}
