ghost use Rattle.std.specs.Prelude.{◌<◌, All, IfOk, length};
ghost use Rattle.mbox_scan.specs.Mailbox.{texts_of};
ghost use Rattle.message_state.specs.ShownRows.{IsShown};
ghost use Rattle.message_list.specs.Choosing.{chosen, IsChosen, IsMessage};

use crate::list::{ListError, Purpose};
use crate::read::read_list;
use crate::selection::select;
use mail_text::{Items, Text};
use mbox_scan::Folder;
use message_state::Shown;
use std::alloc::Global;

/// The messages that the words of a list select, in view order: one at least, and each is a message. `folder` has their
/// texts, which search criteria are asked of. `Syntax` has the first word that is no word of a list; if there is none,
/// `NoSuch` has the first that names no message. `NoneMatch` comes if there are no words and no message that stands for none.
pub fn chosen(
    alloc: Global,
    words: &[Text],
    shown: &Shown,
    folder: &Folder,
    purpose: Purpose,
) -> Result<Items<u32>, ListError>
    requires { IsShown shown.now }
    ensures chosen { IsChosen result (chosen purpose shown.now (texts_of folder.now) words.now) }
    ensures some { IfOk result (λ ns. 0 < length ns) }
    ensures messages { IfOk result (λ ns. All (IsMessage shown.now) ns) }
{
    let list = match read_list(alloc, words) {
        Ok(list) => list,
        Err(error) => return Err(error),
    };
    match select(alloc, &list, shown, folder, purpose) {
        Ok(numbers) => Ok(Items::of(numbers)),
        Err(error) => Err(error),
    }
}
