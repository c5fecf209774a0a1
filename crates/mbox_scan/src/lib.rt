//! The messages of a mailbox file. A message starts at `From ` at the first byte of the file or
//! after two line feeds. Its text runs to the next start, without the line feeds at its end.
#![tactic(auto)]

mod error;
mod folder;
mod growth;
mod laws;
mod scan;
mod span;
mod texts;

pub use error::{GrowError, ScanError};
pub use folder::{Folder, MOST_MESSAGES, MessageRef};
pub use laws::{list_of_join, messages_are_proper, texts_are_proper};
pub use scan::{is_mailbox, trimmed_len};
pub use texts::{Texts, is_message};
