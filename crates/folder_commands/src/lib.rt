//! Commands that put messages into files: copy, Copy, save, Save and write, each of which comes to one change of one
//! file, or to the line that refuses it; and quit and file, which come to the changes that were gathered, and then those
//! of mbox and of the folder.
//! Nothing is changed yet. What these make of the file that is opened is said here too, what was added to the open one,
//! and what an edited message makes of it.
#![tactic(auto)]

mod editing;
mod growing;
mod laws;
mod leaving;
mod making;
mod opening;
mod saving;
mod wanted;

pub use editing::{Edition, edition_of};
pub use growing::{grow_folder, newmail, news_line};
pub use laws::made_is_applied;
pub use leaving::quit;
pub use making::made_folder;
pub use opening::{file, opening_line};
pub use saving::{copy, copy_by_author, receipt, save, save_by_author, write};
pub use wanted::Filing;
