//! Commands that change nothing but the desk, and print what they have to say: they set the view, mark messages, set
//! variables and conditions, name people and fields, and define, list and call macros.
#![tactic(auto)]

mod aliasing;
mod calling;
mod conditions;
mod defining;
mod deleting;
mod fields;
mod flags;
mod leaving;
mod setting;
mod sourcing;
mod viewing;

pub use aliasing::{alias, alternates, unalias};
pub use calling::{call, defines};
pub use conditions::condition;
pub use defining::{define, definition_line, undef};
pub use deleting::{delete, delete_and_print, undelete};
pub use fields::{ignore, retain};
pub use flags::flagging;
pub use leaving::{hold, mbox, touch};
pub use setting::{set, unset};
pub use sourcing::source;
pub use viewing::{sort, thread};
